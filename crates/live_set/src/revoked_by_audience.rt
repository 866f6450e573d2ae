// Whether a delegation's audience has revoked it. The audience is not on the route to the issuer, so this is the one place where a
// revocation's effect is decided by its issuer alone.

ghost use Rattle.std.specs.Prelude.{◌≡◌, ◌<◌};
ghost use Rattle.keyset.specs.Word.{bit};
ghost use Rattle.places.specs.Limits.{key_limit};
ghost use Rattle.search.specs.Sets.{Says};

// revokers are the issuers of the revocations that name the delegation.
pub fn revoked_by_audience(revokers: u64, audience: usize) -> bool
    requires { audience < key_limit }
    ensures { Says result (bit revokers audience ≡ 1) }
{
    keyset::has(revokers, audience)
}
