// Runs the rows of RULES 8 (1 to 18), and beside them further inputs and the accessors, marked -:
// one line for each input, held to the file stdout.
#![tactic(auto)]

mod cert_rows;
mod hello_rows;
mod record_rows;
mod say;
mod write_rows;

use std::io::{self, Write};

fn main(rt: HostRuntime) -> io::Result<()> {
    let mut stdout = rt.stdout();
    let to = &mut stdout;
    writeln!(to, "Z is 32 zero bytes, H is 0303 Z 00 0000 00")?;
    writeln!(
        to,
        "refused 1 is Incomplete, 2 Complete, 3 Verify, 4 LengthValue, 5 Tag, 6 Switch, 7 TooLarge, 8 BadLength, 9 NoRoom, 11 NoSuch, 12 NotYetImplemented"
    )?;
    hello_rows::clients(to)?;
    hello_rows::stricts(to)?;
    record_rows::messages(to)?;
    record_rows::records(to)?;
    record_rows::others(to)?;
    record_rows::heartbeats(to)?;
    record_rows::many(to)?;
    hello_rows::versions(to)?;
    write_rows::backs(to)?;
    cert_rows::lists(to)?;
    hello_rows::servers(to)?;
    hello_rows::accessors(to)?;
    write_rows::orders(to)
}
