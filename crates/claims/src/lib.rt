// What is claimed of the whole: three functions that compute nothing and promise it. The pages to
// read are `specs/Claims.antt` and `specs/ExtensionClaims.antt`.
#![tactic(auto)]

ghost use Rattle.claims.specs.Claims.{Claims};
ghost use Rattle.claims.specs.ExtensionClaims.{ExtensionClaims};
ghost use Rattle.wire.specs.Numbers.{Bytes};

// Promises every claim: a theorem that goes missing leaves this function unproved.
fn all_claims()
    ensures { Claims }
{}

// Promises every claim of extensions, likewise.
fn extension_claims()
    ensures { ExtensionClaims }
{}

// Promises that what is lent as bytes is a list of bytes, by its type: the premise of the claims,
// for whatever is lent.
fn bytes_lent(s: &[u8])
    ensures { Bytes s.now }
{
    wire::view::rest_of(s, 0);
}
