//! The program that an accepted file is.
ghost use Rattle.std.specs.Prelude.{◌≡◌, None};
ghost use Rattle.pyd_names.specs.WellFormed.{IsWellFormed};
ghost use Rattle.pyd_names.specs.Binding as names;
ghost use Rattle.pyd_scope.specs.Checks as spec;
ghost use Rattle.pyd_scope.specs.Parts as parts;
ghost use Rattle.pyd_scope.specs.Indexing.{index_of};
ghost use Rattle.pyd_scope.specs.Tables.{AreTables};

use crate::Routine;
use crate::index::Index;
use crate::tables::Tables;
use pyd_tree::File;
use pyd_value::{List, Text, Value};

/// A file that breaks no rule, with its routines and constants. That they are the file's, and that
/// the file meets the condition of `check`, holds of every value of this type.
#[derive(Drop)]
pub struct Program {
    pub file: File,
    /// The module, and then the functions in text order.
    pub routines: List<Routine>,
    /// `__name__`, and then the file's constants in text order, with their values.
    pub constants: List<(Text, Value)>,
    /// What `resolve` knows of names without a search.
    pub(crate) tables: Tables,
    /// Where statements and expressions stand, by their numbers.
    pub(crate) index: Index,
    ghost well_formed: { IsWellFormed file },
    ghost accepted: { spec.refusal file ≡ None },
    ghost its_routines: { routines ≡ parts.routines file },
    ghost its_constants: { constants ≡ names.constants file },
    ghost its_tables: { AreTables file tables },
    ghost its_index: { index ≡ index_of file },
}
