// A held certificate in the notation that it was read in, so that a list of certificates is a text that another store can read.
use crate::kernel::{Kind, Store};
use crate::say;
use keyline::refusal::Refusal;
use notation::level;
use std::io;
use text::name::Name;

pub(crate) fn certificate(
    rt: &impl Print,
    store: &Store,
    kind: Kind,
    digest: &Name,
) -> io::Result<()> {
    match kind {
        Kind::Delegation => delegation(rt, store, digest),
        Kind::Revocation => revocation(rt, store, digest),
    }
}

fn delegation(rt: &impl Print, store: &Store, digest: &Name) -> io::Result<()> {
    begin(rt, digest)?;
    match store.delegation(digest) {
        Ok(Some(held)) => {
            say::name(rt, &held.issuer)?;
            print!(rt; " > ")?;
            say::name(rt, &held.audience)?;
            print!(rt; " {} / ", level::name(held.power))?;
            say::name(rt, &held.subject)?;
            rt.println("")
        }
        Ok(None) => not_held(rt),
        Err(why) => refused(rt, why),
    }
}

fn revocation(rt: &impl Print, store: &Store, digest: &Name) -> io::Result<()> {
    begin(rt, digest)?;
    match store.revocation(digest) {
        Ok(Some(held)) => {
            say::name(rt, &held.issuer)?;
            print!(rt; " revokes ")?;
            say::name(rt, &held.revoked)?;
            rt.println("")
        }
        Ok(None) => not_held(rt),
        Err(why) => refused(rt, why),
    }
}

fn begin(rt: &impl Print, digest: &Name) -> io::Result<()> {
    print!(rt; "  ")?;
    say::name(rt, digest)?;
    print!(rt; ": ")
}

fn not_held(rt: &impl Print) -> io::Result<()> {
    rt.println("not held")
}

fn refused(rt: &impl Print, why: Refusal) -> io::Result<()> {
    println!(rt; "{}", say::Refused(why))
}
