// The exports of `norrabist_c::messages`; made by ./papers --write.
ghost use Rattle.std.specs.Prelude.{◌≡◌};
ghost use Rattle.content_walk.specs.ContentWalks.{messages_of};
ghost use Rattle.norrabist_c.specs.Heads.{contents_told, head_told, listed_head, tally_told};
ghost use Rattle.record_walk.specs.Walks.{messages_from};

use norrabist_c::messages::{MessageHeadTold, TallyTold};

// Reads the head of the message that begins at `at`: Incomplete where the message is not all
// there, then Switch where its type is not listed. The body's refusals are those of its reader.
#[unsafe(no_mangle)]
pub extern "C" fn norrabist_parse_tls_message_head(s: &[u8], at: usize) -> MessageHeadTold
    ensures { result ≡ head_told (listed_head s.now at) }
{
    norrabist_c::messages::norrabist_parse_tls_message_head(s, at)
}

// Counts the messages of a record's content from byte `from` on, up to the first that is refused.
#[unsafe(no_mangle)]
pub extern "C" fn norrabist_count_messages(s: &[u8], from: usize) -> TallyTold
    ensures { result ≡ tally_told (messages_from s.now from) from }
{
    norrabist_c::messages::norrabist_count_messages(s, from)
}

// Counts the messages of a record's content by the type of the record, up to the first that is
// refused; of application data and a heartbeat there is one at most.
#[unsafe(no_mangle)]
pub extern "C" fn norrabist_count_contents(record_type: u8, s: &[u8]) -> TallyTold
    ensures { result ≡ contents_told (messages_of record_type s.now) }
{
    norrabist_c::messages::norrabist_count_contents(record_type, s)
}
