//! The records that an image tells of.
ghost use Rattle.std.specs.Prelude.{◌≡◌, ◌==◌, ◌++◌, ◌∷◌, [], map, nat_lt, OnOk};
ghost use Rattle.std.specs.List.{list_all, list_any};
ghost use Rattle.std.specs.Str.{bytes_eq};
ghost use Rattle.qplain.specs.declared.principal.Principal.{Principal};
ghost use Rattle.qplain.specs.State.{holder_cmp};
ghost use Rattle.qtext_image.specs.Faults.{is_begun_kind};
ghost use Rattle.qtext_image.specs.NextFaults.{is_behind};
ghost use Rattle.qtext_image.specs.Setups.{principals_of};
ghost use Rattle.qstore_open.specs.Told.{IsPushed, are_later_none, first_id, holder_of, parts_of, records_in};

use qplain::{MAX_PRINCIPALS, NoMemory, Quota};
use qrules::{Kind, PrincipalName};
use std::alloc::Global;

/// A record as an image tells of it: the uses are those that it tells.
#[derive(Debug, Drop)]
pub(crate) struct ToldRecord {
    pub id: u32,
    pub name: PrincipalName,
    pub quota: Quota,
}

/// The records of each kind, in their order.
#[derive(Debug, Drop)]
pub(crate) struct ToldRecords {
    pub users: Vec<ToldRecord>,
    pub groups: Vec<ToldRecord>,
    pub projects: Vec<ToldRecord>,
}

/// All of these records have lower ids.
fn are_below(records: &[ToldRecord], id: u32) -> bool
    ensures { result ≡ list_all (λ t. nat_lt t.id id) records.now }
{
    records.iter().all(|told| told.id < id)
}

impl ToldRecords {
    /// No records. It takes no memory.
    pub(crate) fn new(alloc: Global) -> Self
        ensures users { result.users.items ≡ [] }
        ensures groups { result.groups.items ≡ [] }
        ensures projects { result.projects.items ≡ [] }
    {
        ToldRecords {
            users: Vec::new(alloc),
            groups: Vec::new(alloc),
            projects: Vec::new(alloc),
        }
    }

    /// Those of a kind.
    pub(crate) fn of(&self, kind: Kind) -> &[ToldRecord]
        ensures { result.now ≡ records_in kind self.now }
    {
        match kind {
            Kind::User => &self.users,
            Kind::Group => &self.groups,
            Kind::Project => &self.projects,
        }
    }

    /// One of the kind has this id.
    pub(crate) fn has(&self, kind: Kind, id: u32) -> bool
        ensures { result ≡ list_any (λ t. id == t.id) (records_in kind self.now) }
    {
        self.of(kind).iter().any(|told| id == told.id)
    }

    /// None of a later kind is told.
    fn are_later_none(&self, kind: Kind) -> bool
        ensures { result ≡ are_later_none kind self.now }
    {
        match kind {
            Kind::User => self.groups.is_empty() && self.projects.is_empty(),
            Kind::Group => self.projects.is_empty(),
            Kind::Project => true,
        }
    }

    /// All of them stand before one of this kind and id.
    #[tactic(auto, using(crate::proofs::ByKind::behind_told))]
    pub(crate) fn are_before(&self, kind: Kind, id: u32) -> bool
        ensures { result ≡ is_behind holder_cmp (map (λ t. t.holder) (parts_of self.now)) (holder_of kind id) }
    {
        self.are_later_none(kind) && are_below(self.of(kind), id)
    }

    /// The id of the first of the kind, and where there is none this one.
    fn first_id(&self, kind: Kind, id: u32) -> u32
        ensures { result ≡ first_id id (records_in kind self.now) }
    {
        match self.of(kind).first() {
            Some(first) => first.id,
            None => id,
        }
    }

    /// With one of this id the first of the kind has the id 0, and they are no more than there may be.
    #[tactic(auto, using(crate::proofs::ByKind::begun_told))]
    pub(crate) fn begin_with(&self, kind: Kind, id: u32) -> bool
        ensures { (p : Principal) → p.id ≡ id
            → result ≡ is_begun_kind (principals_of kind (map (λ t. t.holder) (parts_of self.now)) ++ p ∷ []) }
    {
        self.first_id(kind, id) == 0 && self.of(kind).len() < MAX_PRINCIPALS
    }

    /// One of the kind has this name.
    pub(crate) fn has_name(&self, kind: Kind, name: &[u8]) -> bool
        ensures { result ≡ list_any (λ t. bytes_eq t.name name.now) (records_in kind self.now) }
    {
        self.of(kind)
            .iter()
            .any(|told| told.name.as_str().as_bytes() == name)
    }

    /// Puts a record behind the others of its kind.
    pub(crate) fn push(&mut self, kind: Kind, told: ToldRecord) -> Result<(), NoMemory>
        ensures { OnOk result (IsPushed kind told self.old self.new) }
    {
        match kind {
            Kind::User => self.users.push(told)?,
            Kind::Group => self.groups.push(told)?,
            Kind::Project => self.projects.push(told)?,
        }
        Ok(())
    }
}
