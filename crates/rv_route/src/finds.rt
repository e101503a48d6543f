//! What a line's fields have that the rules of its event name: few names are looked up one by one, and many in one walk.
ghost use Rattle.std.specs.Prelude.{◌≤◌, length, All, IfOk};
ghost use Rattle.rv_trace.specs.FoundFields.{AreFound, IsInside};

use crate::asking::look_up;
use rv_trace::{FieldNames, FoundFields, Span};
use std::alloc::{AllocError, Global};
use std::marker::Model;

/// From so many names on one walk over a line's words takes less time than a search for each name.
const MANY_FIELDS: usize = 16;

/// Room for what is found on a line, for each name's place. What stands there between two lines tells nothing.
#[derive(Drop)]
pub struct Finds {
    few: Vec<Option<Span>>,
    many: FoundFields,
}

impl Model for Finds {
    ghost Value = { Unit {0} };

    ghost view = { λ f. tt };
}

impl Finds {
    /// Room for nothing yet.
    pub fn new(alloc: Global) -> Finds {
        Finds {
            few: Vec::new(alloc),
            many: FoundFields::new(alloc),
        }
    }

    /// Looks the names up on a line.
    #[inline(always)]
    pub fn look_up(
        &mut self,
        fields: &[u8],
        names: &FieldNames,
    ) -> Result<&[Option<Span>], AllocError>
        requires { length fields.now ≤ 4294967295 }
        ensures found { IfOk result (λ found. AreFound fields.now names.now found.now) }
        ensures inside { IfOk result (λ found. All (IsInside fields.now) found.now) }
    {
        if names.names().len() >= MANY_FIELDS {
            names.find(fields, &mut self.many)?;
            return Ok(self.many.spans());
        }
        look_up(fields, names.names(), &mut self.few)?;
        Ok(self.few.as_slice())
    }
}
