// The bodies that speak of certificates: Certificate, CertificateRequest, CertificateStatus. What a
// certificate holds is not looked at.
#![tactic(auto)]

pub mod certificate;
pub mod request;
pub mod status;
