//! The view of the bytes as a whole.

ghost use Rattle.std.specs.Prelude.{◌≡◌, IfOk};
ghost use Rattle.btf_view.specs.File.{parts_of};
ghost use Rattle.btf_view.specs.Maps.{map_fields, members_of};
ghost use Rattle.btf_view.specs.Rules.{FailsAs, first_error};
ghost use Rattle.btf_view.specs.Vars.{find_var};

use crate::error::BtfError;
use crate::fields::MapFields;
use crate::header::{check_length, check_magic, check_parts, string_part, type_part};
use crate::members::Members;
use crate::shape::Shape;
use crate::strings::Strings;
use crate::types::Types;
use crate::vars::first_var;
use std::marker::Model;

/// BTF, by its two parts: each type is read where it stands. Contracts see it as the bytes of both.
#[derive(Drop)]
pub struct BtfView<'a> {
    types: Types<'a>,
    strings: Strings<'a>,
}

impl<'a> Model for BtfView<'a> {
    ghost use Rattle.btf_view.specs.File.{Parts};

    ghost Value = { Parts };

    ghost view = { λ b. record { types = b.types; strings = b.strings } };
}

impl<'a> BtfView<'a> {
    /// Opens the bytes of a section `.BTF`: it fails with their first error, in the order of the rules. All types are
    /// checked, and no names.
    #[tactic(auto, unfolding(crate::specs::Rules::first_error, crate::specs::File::parts_of))]
    pub fn open(bytes: &'a [u8]) -> Result<BtfView<'a>, BtfError>
        ensures error { FailsAs result (first_error bytes.now) }
        ensures parts { IfOk result (λ view. view ≡ parts_of bytes.now) }
    {
        check_length(bytes)?;
        check_magic(bytes)?;
        check_parts(bytes)?;
        Ok(BtfView {
            types: Types::open(type_part(bytes))?,
            strings: Strings::new(string_part(bytes)),
        })
    }

    /// The number of the first variable of this name, or none. It fails with `Short` where the name of a variable in
    /// front of it does not end in the string part.
    pub fn find_var(&self, name: &[u8]) -> Result<Option<u32>, BtfError>
        ensures { result ≡ find_var self.now name.now }
    {
        first_var(&self.types, &self.strings, name)
    }

    /// The members of the structure that variable `id` is.
    #[tactic(auto, unfolding(crate::specs::Maps::members_of))]
    fn members(&self, id: u32) -> Result<Members<'_>, BtfError>
        ensures { result ≡ members_of self.now id }
    {
        let Shape::Variable { id: of } = self.types.shape(id) else {
            return Err(BtfError::Field { member: 0 });
        };
        match self.types.unmodified(of)? {
            Shape::Structure { place, count, .. } => {
                Ok(Members::new(&self.types, &self.strings, place, count))
            }
            _ => Err(BtfError::Field { member: 0 }),
        }
    }

    /// The fields of the map that variable `id` defines. It fails with the first error: that of the variable, or of its
    /// structure's members in their order.
    #[tactic(auto, unfolding(crate::specs::Maps::map_fields))]
    pub fn map_fields(&self, id: u32) -> Result<MapFields, BtfError>
        ensures { result ≡ map_fields self.now id }
    {
        let members = self.members(id)?;
        members.check()?;
        Ok(members.fields())
    }
}
