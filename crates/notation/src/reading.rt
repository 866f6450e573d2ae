// From a line to a statement. A line whose second word is `:` is a certificate; every other line is a question, told by its first words.
use crate::expected::Expected;
use crate::level;
use crate::statement::{Delegation, Question, Revocation, Statement};
use text::name::{Name, is_name};
use text::words;

// What the line says. One of spaces and a comment alone says nothing.
pub fn read(line: &[u8]) -> Result<Option<Statement>, Expected> {
    let words = words::split(line)?;
    match words.as_slice() {
        [] => Ok(None),
        [digest, sign, content @ ..] if is(sign, ":") => Ok(Some(certificate(digest, content)?)),
        [first, others @ ..] => Ok(Some(Statement::Question(question(first, others)?))),
    }
}

fn certificate(digest: &[u8], content: &[&[u8]]) -> Result<Statement, Expected> {
    match content {
        [_, verb, ..] if is(verb, ">") => {
            Ok(Statement::Delegation(delegation(digest, content)?))
        }
        [_, verb, ..] if is(verb, "revokes") => {
            Ok(Statement::Revocation(revocation(digest, content)?))
        }
        _ => Err(Expected::Certificate),
    }
}

// NAME : ISSUER > AUDIENCE LEVEL / SUBJECT
fn delegation(digest: &[u8], content: &[&[u8]]) -> Result<Delegation, Expected> {
    let [issuer, _, audience, level, sign, subject] = content else {
        return Err(Expected::Delegation);
    };
    if !is(sign, "/") {
        return Err(Expected::Delegation);
    }
    let power = level::named(level).ok_or(Expected::Level)?;
    if !are_names(&[digest, issuer, audience, subject]) {
        return Err(Expected::Delegation);
    }
    Ok(Delegation {
        digest: name(digest)?,
        issuer: name(issuer)?,
        audience: name(audience)?,
        power,
        subject: name(subject)?,
    })
}

// NAME : ISSUER revokes NAME
fn revocation(digest: &[u8], content: &[&[u8]]) -> Result<Revocation, Expected> {
    let [issuer, _, revoked] = content else {
        return Err(Expected::Revocation);
    };
    if !are_names(&[digest, issuer, revoked]) {
        return Err(Expected::Revocation);
    }
    Ok(Revocation {
        digest: name(digest)?,
        issuer: name(issuer)?,
        revoked: name(revoked)?,
    })
}

// Told by comparisons and not by patterns, which the check takes apart byte by byte.
fn question(first: &[u8], others: &[&[u8]]) -> Result<Question, Expected> {
    if is(first, "members") {
        let subject = one(others, Expected::Members)?;
        return Ok(Question::Members { subject });
    }
    if is(first, "power") {
        let (subject, key) = two(others, Expected::Power)?;
        return Ok(Question::Power { subject, key });
    }
    if is(first, "positive") {
        let (subject, key) = two(others, Expected::Positive)?;
        return Ok(Question::Positive { subject, key });
    }
    if is(first, "live") {
        let delegation = one(others, Expected::Live)?;
        return Ok(Question::Live { delegation });
    }
    if is(first, "conveys") {
        let delegation = one(others, Expected::Conveys)?;
        return Ok(Question::Conveys { delegation });
    }
    if is(first, "standing") {
        let delegation = one(others, Expected::Standing)?;
        return Ok(Question::Standing { delegation });
    }
    list_question(first, others)
}

// The questions whose answer is a list.
fn list_question(first: &[u8], others: &[&[u8]]) -> Result<Question, Expected> {
    if is(first, "closure") {
        let subject = one(others, Expected::Closure)?;
        return Ok(Question::Closure { subject });
    }
    if is(first, "graph") {
        let subject = one(others, Expected::Graph)?;
        return Ok(Question::Graph { subject });
    }
    if is(first, "certificates") {
        none(others, Expected::Certificates)?;
        return Ok(Question::Certificates);
    }
    if is(first, "subjects") {
        none(others, Expected::Subjects)?;
        return Ok(Question::Subjects);
    }
    match others {
        [second, names @ ..] => pair_question(first, second, names),
        [] => Err(Expected::Statement),
    }
}

// The questions that two words begin.
fn pair_question(first: &[u8], second: &[u8], names: &[&[u8]]) -> Result<Question, Expected> {
    if is(first, "revocations") && is(second, "of") {
        let certificate = one(names, Expected::RevocationsOf)?;
        return Ok(Question::RevocationsOf { certificate });
    }
    if is(first, "delegations") && is(second, "to") {
        let (subject, audience) = two(names, Expected::DelegationsTo)?;
        return Ok(Question::DelegationsTo { subject, audience });
    }
    Err(Expected::Statement)
}

fn is(word: &[u8], text: &'static str) -> bool {
    word == text.as_bytes()
}

fn none(words: &[&[u8]], wanted: Expected) -> Result<(), Expected> {
    if words.is_empty() {
        Ok(())
    } else {
        Err(wanted)
    }
}

// The one name that the words are, or else what is wanted of them.
fn one(words: &[&[u8]], wanted: Expected) -> Result<Name, Expected> {
    match words {
        [word] if are_names(words) => name(word),
        _ => Err(wanted),
    }
}

fn two(words: &[&[u8]], wanted: Expected) -> Result<(Name, Name), Expected> {
    match words {
        [first, second] if are_names(words) => Ok((name(first)?, name(second)?)),
        _ => Err(wanted),
    }
}

fn are_names(words: &[&[u8]]) -> bool {
    words.iter().all(|word| is_name(word))
}

// The name that a word is, which only its length can forbid.
fn name(word: &[u8]) -> Result<Name, Expected> {
    Name::new(word).ok_or(Expected::ShortName)
}
