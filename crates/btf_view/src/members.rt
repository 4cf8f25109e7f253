//! The members of a map definition.

ghost use Rattle.std.specs.Prelude.{◌≡◌, ◌+◌, ◌*◌, ◌^◌, ◌<◌, ◌≤◌, length, IfSome};
ghost use Rattle.btf_view.specs.Members.{differs, fields_of, member_before, member_fault, member_name_at, member_name_off, member_type, members_fault, number_at, number_before, said, text_of};
ghost use Rattle.btf_view.specs.Names.{is_named};
ghost use Rattle.btf_view.specs.Rules.{FailsAs};

use crate::error::BtfError;
use crate::fields::MapFields;
use crate::name::MemberName;
use crate::read::u32_at;
use crate::shape::Shape;
use crate::strings::Strings;
use crate::types::Types;
use std::marker::Model;

/// The members of a structure that defines a map: `count` records of 12 bytes, from a place of the type part on. There
/// are eight names, and a second member of one name is at fault, so no more than nine members are looked at. Earlier
/// ones are looked up again where they are asked for, and nothing is kept.
#[derive(Drop)]
pub struct Members<'v> {
    types: &'v Types<'v>,
    strings: &'v Strings<'v>,
    place: usize,
    count: u32,
}

impl<'v> Model for Members<'v> {
    ghost use Rattle.std.specs.Prelude.{◌+◌, ◌*◌, ◌^◌, ◌<◌, ◌≤◌, length};
    ghost use Rattle.btf_view.specs.Members.{MemberTable};

    ghost Value = { MemberTable };

    ghost view = { λ m. record { types = m.types.now; strings = m.strings.now; place = m.place; count = m.count } };

    ghost invariant = { λ m. (m.count < 2 ^ 32) × (m.place + 12 * m.count ≤ length m.types.now) };
}

impl<'v> Members<'v> {
    /// So many members, from a place on.
    pub fn new(
        types: &'v Types<'v>,
        strings: &'v Strings<'v>,
        place: usize,
        count: u32,
    ) -> Members<'v>
        requires { place + 12 * count ≤ length types.now }
        ensures { result ≡ record { types = types.now; strings = strings.now; place = place; count = count } }
    {
        Members {
            types,
            strings,
            place,
            count,
        }
    }

    /// Where the name of member `i` begins.
    fn name_off(&self, i: u32) -> u32
        requires { i < self.now.count }
        ensures { result ≡ member_name_off self.now i }
    {
        u32_at(self.types.bytes(), self.place + 12 * i as usize)
    }

    /// The type of member `i`.
    fn type_of(&self, i: u32) -> u32
        requires { i < self.now.count }
        ensures { result ≡ member_type self.now i }
    {
        u32_at(self.types.bytes(), self.place + 12 * i as usize + 4)
    }

    /// Whether this is the name of member `i`.
    fn is_named(&self, i: u32, name: MemberName) -> bool
        requires { i < self.now.count }
        ensures { result ≡ is_named self.now.strings (member_name_off self.now i) (text_of name) }
    {
        self.strings.is_named(self.name_off(i), name.text())
    }

    /// The name of member `i`, if it is one of a map definition.
    #[tactic(auto, unfolding(crate::specs::Members::member_name_at))]
    fn name(&self, i: u32) -> Option<MemberName>
        requires { i < self.now.count }
        ensures { result ≡ member_name_at self.now.strings (member_name_off self.now i) }
    {
        MemberName::ALL
            .iter()
            .copied()
            .find(|name| self.is_named(i, *name))
    }

    /// The number that member `i` says, by its name.
    #[tactic(auto, unfolding(crate::specs::Members::number_at))]
    fn number(&self, i: u32, name: MemberName) -> Result<u32, BtfError>
        requires { i < self.now.count }
        ensures { result ≡ number_at self.now i name }
    {
        let shape = self.types.shape(self.type_of(i));
        let member = i + 1;
        let Shape::Pointer { id } = shape else {
            return Err(BtfError::Field { member });
        };
        match name {
            MemberName::Key | MemberName::Value => self.types.size_of(id, member),
            _ => match self.types.shape(id) {
                Shape::ArrayOf { count, .. } => Ok(count),
                _ => Err(BtfError::Field { member }),
            },
        }
    }

    /// The first member of a name in front of member `i`.
    #[tactic(auto, using(list_laws::proofs::FirstLaws::firsts), unfolding(crate::specs::Members::member_before))]
    fn member_before(&self, i: u32, name: MemberName) -> Option<u32>
        requires { i ≤ self.now.count }
        ensures member { result ≡ member_before self.now i name }
        ensures below { IfSome result (λ k. k < i) }
    {
        for k in 0..i {
            if self.is_named(k, name) {
                return Some(k);
            }
        }
        None
    }

    /// What the members in front of member `i` say by a name.
    #[tactic(auto, unfolding(crate::specs::Members::number_before))]
    fn number_before(&self, i: u32, name: MemberName) -> Option<u32>
        requires { i ≤ self.now.count }
        ensures { result ≡ number_before self.now i name }
    {
        match self.member_before(i, name) {
            Some(k) => self.number(k, name).ok(),
            None => None,
        }
    }

    /// Whether the counterpart of member `i` stands in front of it, and says another number.
    fn differs(&self, i: u32, name: MemberName, number: u32) -> bool
        requires { i ≤ self.now.count }
        ensures { result ≡ differs self.now i name number }
    {
        match name.counterpart() {
            Some(other) => self.number_before(i, other).is_some_and(|k| k != number),
            None => false,
        }
    }

    /// Member `i` has a name and says a number, as a member of a map definition does.
    #[tactic(auto, unfolding(crate::specs::Members::member_fault))]
    fn check_member(&self, i: u32) -> Result<(), BtfError>
        requires { i < self.now.count }
        ensures { FailsAs result (member_fault self.now i) }
    {
        if !self.strings.has_name(self.name_off(i)) {
            return Err(BtfError::Short);
        }
        let wrong = BtfError::Field { member: i + 1 };
        let Some(name) = self.name(i) else {
            return Err(wrong);
        };
        if self.member_before(i, name).is_some() {
            return Err(wrong);
        }
        let number = self.number(i, name)?;
        if self.differs(i, name, number) {
            return Err(wrong);
        }
        Ok(())
    }

    /// Checks the members in their order: it fails with the first fault.
    #[tactic(auto, using(list_laws::proofs::FirstLaws::firsts), unfolding(crate::specs::Members::members_fault))]
    pub fn check(&self) -> Result<(), BtfError>
        ensures { FailsAs result (members_fault self.now) }
    {
        for i in 0..self.count {
            self.check_member(i)?;
        }
        Ok(())
    }

    /// What the members say by a name.
    fn said(&self, name: MemberName) -> Option<u32>
        ensures { result ≡ said self.now name }
    {
        self.number_before(self.count, name)
    }

    /// The fields that the members say.
    #[tactic(auto, unfolding(crate::specs::Members::fields_of))]
    pub fn fields(&self) -> MapFields
        ensures { result ≡ fields_of self.now }
    {
        MapFields {
            kind: self.said(MemberName::MapType),
            key: self
                .said(MemberName::Key)
                .or(self.said(MemberName::KeySize))
                .unwrap_or(0),
            value: self
                .said(MemberName::Value)
                .or(self.said(MemberName::ValueSize))
                .unwrap_or(0),
            cap: self.said(MemberName::MaxEntries).unwrap_or(0),
            flags: self.said(MemberName::MapFlags).unwrap_or(0),
        }
    }
}
