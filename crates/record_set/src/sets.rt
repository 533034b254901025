//! A record set, what it answers, and what names it within its zone.

ghost use Rattle.std.specs.Prelude.{◌≡◌, IfOk};
ghost use Rattle.std.specs.Option.{option_copied};
ghost use Rattle.record_set.specs.Sets.{ident_of, key_of};

use crate::values::Values;
use rdata::{Name, OutOfMemory, RType};
use routing::{Ident, Routing};
use std::alloc::Global;

/// What a set answers.
#[derive(Drop)]
pub enum Body {
    /// Records with these values.
    Values {
        /// The time to live, in seconds.
        ttl: u32,
        values: Values,
    },
    /// The records of the sets of another name of the zone and of the same type (alias record).
    Alias {
        target: Name,
        /// Whether the health of the target's sets counts (Evaluate Target Health).
        evaluate: bool,
    },
}

/// A set of records of one name and type (Route 53: resource record set).
#[derive(Drop)]
pub struct RecordSet {
    pub name: Name,
    pub rtype: RType,
    pub routing: Routing,
    pub body: Body,
    /// The number of the health check that it names.
    pub check: Option<u32>,
}

/// What names a set within its zone.
#[derive(Clone, Copy)]
pub struct SetKey {
    pub name: Name,
    pub rtype: RType,
    /// None for a simple set.
    pub ident: Option<Ident>,
}

impl RecordSet {
    /// What names it.
    pub fn key(&self) -> SetKey
        ensures { result ≡ key_of self.now }
    {
        SetKey {
            name: self.name,
            rtype: self.rtype,
            ident: ident_of(&self.routing).copied(),
        }
    }

    /// A copy of it.
    pub fn copy(&self, alloc: Global) -> Result<RecordSet, OutOfMemory>
        ensures { IfOk result (λ copy. copy ≡ self.now) }
    {
        let body = self.body.copy(alloc)?;
        Ok(RecordSet {
            name: self.name,
            rtype: self.rtype,
            routing: self.routing,
            body,
            check: self.check,
        })
    }
}

impl Body {
    /// A copy of it.
    fn copy(&self, alloc: Global) -> Result<Body, OutOfMemory>
        ensures { IfOk result (λ copy. copy ≡ self.now) }
    {
        match self {
            Body::Values { ttl, values } => {
                let values = values.copy(alloc)?;
                Ok(Body::Values { ttl: *ttl, values })
            }
            Body::Alias { target, evaluate } => Ok(Body::Alias {
                target: *target,
                evaluate: *evaluate,
            }),
        }
    }
}

/// The identifier of a routing policy. None for a simple one.
pub fn ident_of(routing: &Routing) -> Option<&Ident>
    ensures { option_copied result ≡ ident_of routing.now }
{
    match routing {
        Routing::Simple => None,
        Routing::Weighted(ident, _)
        | Routing::Failover(ident, _)
        | Routing::Geolocation(ident, _)
        | Routing::Latency(ident, _)
        | Routing::Multivalue(ident)
        | Routing::Cidr(ident, _, _) => Some(ident),
    }
}
