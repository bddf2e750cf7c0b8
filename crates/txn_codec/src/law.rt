//! Laws of the spellings.

ghost use Rattle.std.specs.Prelude.{◌≡◌, ℕ, List, Ok, Err};
ghost use Rattle.values.specs.declared.fault.Fault.{Fault as TheFault};
ghost use Rattle.jute.specs.Laws.{IsBytes, IsSound, IsSoundAtEnd};
ghost use Rattle.paths_and_acls.specs.Fields.{path_format, child_path};
ghost use Rattle.txn_codec.specs.Refusals.{AgainstIn, AgainstTxn};
ghost use Rattle.txn_codec.specs.Spelling.{header_in, kind_format_in, part_kind_in, part_format_in, parts_format_in, body_in, txn_in, kind_format, part_kind, create_format, set_data, set_acl, check_format, txn_header, multi_part, multi_parts, body_format, txn_format, value_of_whole};
ghost use Rattle.txn_codec.specs.declared.txn.Txn.{Txn as TheTxn};
ghost use Rattle.txn_codec.specs.declared.place.Place.{Place as ThePlace};
ghost use Rattle.settings.specs.Dialects.{reads_of};

use settings::Dialect;

/// Every format of ZooKeeper 3.4 is sound: what is read was spelled so, a spelling is read, and what is written is a
/// spelling. So a value within the limits that was written is read back. A read is refused exactly for the first field
/// that isn't spelled.
pub fn transactions()
    ensures path { IsSound path_format }
    ensures child_path { IsSound child_path }
    ensures kind { IsSound kind_format }
    ensures part_kind { IsSound part_kind }
    ensures create { IsSound create_format }
    ensures set_data { IsSound set_data }
    ensures set_acl { IsSound set_acl }
    ensures check { IsSound check_format }
    ensures header { IsSound txn_header }
    ensures part { IsSound multi_part }
    ensures parts { IsSound multi_parts }
    ensures body { IsSoundAtEnd body_format }
    ensures txn { IsSoundAtEnd txn_format }
    ensures again { (t : TheTxn) → txn_format.Fits t → value_of_whole txn_format (txn_format.written t) ≡ Ok t }
    ensures names { (bytes : List ℕ) (e : TheFault) → IsBytes bytes
        → value_of_whole txn_format bytes ≡ Err e → AgainstTxn e bytes }
    ensures answers { (bytes : List ℕ) (e : TheFault) → IsBytes bytes
        → AgainstTxn e bytes → value_of_whole txn_format bytes ≡ Err e }
{}

/// The formats of this dialect are sound, as those of ZooKeeper 3.4 are.
pub fn transactions_in(dialect: Dialect)
    ensures header { IsSound (header_in dialect) }
    ensures kind { (place : ThePlace) → IsSound (kind_format_in (reads_of dialect) place) }
    ensures part_kind { IsSound (part_kind_in (reads_of dialect)) }
    ensures part { IsSound (part_format_in (reads_of dialect)) }
    ensures parts { IsSound (parts_format_in (reads_of dialect)) }
    ensures body { IsSoundAtEnd (body_in (reads_of dialect)) }
    ensures txn { IsSoundAtEnd (txn_in dialect) }
    ensures again { (t : TheTxn) → (txn_in dialect).Fits t
        → value_of_whole (txn_in dialect) ((txn_in dialect).written t) ≡ Ok t }
    ensures names { (bytes : List ℕ) (e : TheFault) → IsBytes bytes
        → value_of_whole (txn_in dialect) bytes ≡ Err e → AgainstIn dialect e bytes }
    ensures answers { (bytes : List ℕ) (e : TheFault) → IsBytes bytes
        → AgainstIn dialect e bytes → value_of_whole (txn_in dialect) bytes ≡ Err e }
{}
