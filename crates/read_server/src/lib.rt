// The ServerHello, of TLS 1.0 to 1.2 and SSL 3.0, and of TLS 1.3 draft 18.
#![tactic(auto)]

pub mod tlsv12;
pub mod tlsv13draft18;
