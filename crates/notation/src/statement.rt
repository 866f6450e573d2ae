// What a line says: a certificate or a question, each with the names that it has.
use power_levels::power::Power;
use text::name::Name;

#[derive(Clone, Copy)]
pub enum Statement {
    Delegation(Delegation),
    Revocation(Revocation),
    Question(Question),
}

// NAME : ISSUER > AUDIENCE LEVEL / SUBJECT
#[derive(Clone, Copy)]
pub struct Delegation {
    pub digest: Name,
    pub issuer: Name,
    pub audience: Name,
    pub power: Power,
    pub subject: Name,
}

// NAME : ISSUER revokes NAME
#[derive(Clone, Copy)]
pub struct Revocation {
    pub digest: Name,
    pub issuer: Name,
    pub revoked: Name,
}

#[derive(Clone, Copy)]
pub enum Question {
    Members { subject: Name },
    Power { subject: Name, key: Name },
    Positive { subject: Name, key: Name },
    Live { delegation: Name },
    Conveys { delegation: Name },
    Standing { delegation: Name },
    Closure { subject: Name },
    RevocationsOf { certificate: Name },
    DelegationsTo { subject: Name, audience: Name },
    Certificates,
    Subjects,
    Graph { subject: Name },
}
