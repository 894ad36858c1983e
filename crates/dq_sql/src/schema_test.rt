//! Of which version the tables and the indexes of a store are, where it has nothing else.
ghost use Rattle.std.specs.Prelude.{◌≡◌, ◌<◌, [], ◌∷◌, false, None, IsTrue, IfSome};
ghost use Rattle.sqlite_value.specs.declared.value.Value.TheVariants.{Int};
ghost use Rattle.sqlite_value.specs.declared.keys.Collation.TheVariants.{Binary};
ghost use Rattle.sqlite_sql.specs.declared.ops.BinaryOp.TheVariants.{And, Compare};
ghost use Rattle.sqlite_schema.specs.declared.code.Op.TheVariants as node;
ghost use Rattle.sqlite_schema.specs.Code.{terms_in};
ghost use Rattle.dq_sql.specs.Schema.{optional, record_columns, further_columns, kept_columns, version_columns, kind_checks, kept_table, version_table, kept_index, key_index, above_index, patient_index, day_index, started_index, further_indexes, schema_of};
ghost use Rattle.dq_sql.specs.declared.version.Version.TheVariants.{Two};
ghost use Rattle.dq_sql.specs.FoundStores.{HasVersion};
ghost use Rattle.dq_sql.specs.SchemaTest.{HasNoMore, HasNoRules, HasKey, BoundsKind, IsKeptTable, HasOthers};

use crate::version::Version;
use sqlite_schema::code::{Op, Terms};
use sqlite_schema::schema::{Column, Index, Kind, Schema, Table};
use sqlite_sql::ops::{BinaryOp, CompareOp};
use sqlite_value::keys::Collation;
use sqlite_value::value::Value;

/// Whether a column has the name and the kind, is strict, and has neither a default nor a collation
/// of its own.
fn is_column(column: &Column, name: &[u8], kind: Kind, is_required: bool) -> bool
    ensures is { IsTrue result
        → column.now ≡ record (optional name.now kind) { not_null = is_required } }
    ensures told { column.now ≡ record (optional name.now kind) { not_null = is_required }
        → IsTrue result }
{
    column.name.as_slice() == name
        && column.kind == kind
        && column.is_strict
        && column.not_null == is_required
        && matches!(column.default, Value::Null)
        && column.collation == Collation::Binary
}

/// Whether the columns are those of a record.
fn are_record_columns(columns: &[Column]) -> bool
    ensures { IsTrue result → columns.now ≡ record_columns }
{
    let [kind, institution, id, above, patient, day, octets] = columns else {
        return false;
    };
    is_column(kind, b"kind", Kind::Integer, true)
        && is_column(institution, b"inst", Kind::Text, true)
        && is_column(id, b"id", Kind::Blob, true)
        && is_column(above, b"above", Kind::Blob, true)
        && is_column(patient, b"patient", Kind::Blob, false)
        && is_column(day, b"day", Kind::Integer, false)
        && is_column(octets, b"octets", Kind::Blob, true)
}

/// The version whose further columns these are.
fn further_version(columns: &[Column]) -> Option<Version>
    ensures { IfSome result (λ version. columns.now ≡ further_columns version) }
{
    match columns {
        [] => Some(Version::One),
        [started] if is_column(started, b"started", Kind::Integer, true) => Some(Version::Two),
        _ => None,
    }
}

/// The version whose table `kept` has the columns.
fn columns_version(columns: &[Column]) -> Option<Version>
    ensures { IfSome result (λ version. columns.now ≡ kept_columns version) }
{
    if columns.len() < 7 {
        return None;
    }
    let (record, further) = columns.split_at(7);
    if are_record_columns(record) {
        further_version(further)
    } else {
        None
    }
}

/// Whether the columns are those of the table `version`.
fn are_version_columns(columns: &[Column]) -> bool
    ensures are { IsTrue result → columns.now ≡ version_columns }
    ensures told { columns.now ≡ version_columns → IsTrue result }
{
    let [number] = columns else {
        return false;
    };
    is_column(number, b"number", Kind::Integer, true)
}

/// Whether a node is the column `kind` of the row.
fn is_kind(op: &Op) -> bool
    ensures { IsTrue result → op.now ≡ node.Column 1 1 }
{
    matches!(op, Op::Column(1, 1))
}

/// Whether a node is the number.
fn is_number(op: &Op, number: i64) -> bool
    ensures { IsTrue result → op.now ≡ node.Literal (Int number) }
{
    match op {
        Op::Literal(Value::Int(found)) => *found == number,
        _ => false,
    }
}

/// Whether a node compares two others, octet by octet where they are texts.
fn is_comparison(op: &Op, how: CompareOp, left: usize, right: usize) -> bool
    ensures { IsTrue result → op.now ≡ node.Binary (Compare how Binary) left right }
{
    match op {
        Op::Binary(BinaryOp::Compare(found, Collation::Binary), a, b) => *found == how
            && *a == left
            && *b == right,
        _ => false,
    }
}

/// Whether a node is true where two others are.
fn is_both(op: &Op, left: usize, right: usize) -> bool
    ensures { IsTrue result → op.now ≡ node.Binary And left right }
{
    match op {
        Op::Binary(BinaryOp::And, a, b) => *a == left && *b == right,
        _ => false,
    }
}

/// Whether three nodes, from a place on, say how the column `kind` of the row compares to a number.
fn bounds_kind(kind: &Op, limit: &Op, test: &Op, how: CompareOp, number: i64, place: usize) -> bool
    requires { place < 5 }
    ensures { IsTrue result → BoundsKind kind.now limit.now test.now how number place }
{
    is_kind(kind) && is_number(limit, number) && is_comparison(test, how, place, place + 1)
}

/// Whether the last of seven nodes says that `kind` is 1 to 5.
#[tactic(auto, using(crate::proofs::SchemaTest::kind_range))]
fn are_kind_nodes(nodes: &[Op]) -> bool
    ensures { IsTrue result → terms_in nodes.now (6 ∷ []) ≡ kind_checks }
{
    let [least_of, least, from, most_of, most, to, both] = nodes else {
        return false;
    };
    bounds_kind(least_of, least, from, CompareOp::Ge, 1, 0)
        && bounds_kind(most_of, most, to, CompareOp::Le, 5, 3)
        && is_both(both, 2, 5)
}

/// Whether the tests of a table are that `kind` is 1 to 5.
fn are_kind_checks(checks: &Terms) -> bool
    ensures { IsTrue result → checks.now ≡ kind_checks }
{
    are_kind_nodes(checks.nodes.as_slice()) && matches!(checks.roots.as_slice(), [6])
}

/// Whether a table has no key that is the rowid, no references, and no default that reads the time.
fn has_no_more(table: &Table) -> bool
    ensures has { IsTrue result → HasNoMore table.now }
    ensures told { HasNoMore table.now → IsTrue result }
{
    table.key.is_none()
        && table.references.as_slice().is_empty()
        && table.computed.as_slice().is_empty()
        && table.stamps.places.as_slice().is_empty()
        && table.stamps.terms.roots.as_slice().is_empty()
        && table.stamps.formats.as_slice().is_empty()
        && !table.is_counted
}

/// Whether the primary key of a table is of its first three columns.
fn has_key(table: &Table) -> bool
    ensures { IsTrue result → HasKey table.now }
{
    let [key] = table.uniques.as_slice() else {
        return false;
    };
    let [order] = table.orders.as_slice() else {
        return false;
    };
    matches!(table.primary.as_slice(), [1, 2, 3])
        && matches!(key.as_slice(), [1, 2, 3])
        && order.digits == 0
}

/// Whether a table is `kept`, but for its columns.
fn is_kept(table: &Table) -> bool
    ensures { IsTrue result → IsKeptTable table.now }
{
    table.name.as_slice() == b"kept".as_slice()
        && table.tree == 0
        && has_key(table)
        && are_kind_checks(&table.checks)
        && has_no_more(table)
}

/// The version of which a table is `kept`.
#[tactic(auto, using(crate::proofs::SchemaTest::kept_from))]
fn kept_version(table: &Table) -> Option<Version>
    ensures { IfSome result (λ version. table.now ≡ kept_table version) }
{
    if is_kept(table) {
        columns_version(table.columns.as_slice())
    } else {
        None
    }
}

/// Whether a table has neither a primary key, nor what is unique, nor tests.
fn has_no_rules(table: &Table) -> bool
    ensures has { IsTrue result → HasNoRules table.now }
    ensures told { HasNoRules table.now → IsTrue result }
{
    table.primary.as_slice().is_empty()
        && table.uniques.as_slice().is_empty()
        && table.orders.as_slice().is_empty()
        && table.checks.roots.as_slice().is_empty()
}

/// Whether a table is `version`, in whatever tree.
#[tactic(auto, using(crate::proofs::SchemaTest::version_at))]
fn is_version_table(table: &Table) -> bool
    ensures is { IsTrue result → table.now ≡ record version_table { tree = table.now.tree } }
    ensures told { table.now ≡ record version_table { tree = table.now.tree } → IsTrue result }
{
    table.name.as_slice() == b"version".as_slice()
        && are_version_columns(table.columns.as_slice())
        && has_no_rules(table)
        && has_no_more(table)
}

/// Whether a store has the table `version`, in whatever tree.
pub(crate) fn has_version(schema: &Schema) -> bool
    ensures has { IsTrue result → HasVersion schema.now }
    ensures told { HasVersion schema.now → IsTrue result }
{
    for table in schema.tables.as_slice() {
        if is_version_table(table) {
            return true;
        }
    }
    false
}

/// Whether a table is `version`.
#[tactic(auto, using(crate::proofs::SchemaTest::version_from))]
fn is_version(table: &Table) -> bool
    ensures { IsTrue result → table.now ≡ version_table }
{
    table.name.as_slice() == b"version".as_slice()
        && table.tree == 2
        && are_version_columns(table.columns.as_slice())
        && has_no_rules(table)
        && has_no_more(table)
}

/// Whether an index of the table `kept` has the name, the tree and the columns, and ascends.
#[tactic(auto, using(crate::proofs::SchemaTest::index_from))]
fn is_index(index: &Index, name: &[u8], tree: u32, columns: &[usize], is_unique: bool) -> bool
    ensures { IsTrue result
        → index.now ≡ kept_index name.now tree columns.now is_unique }
{
    index.name.as_slice() == name
        && index.tree == tree
        && index.table == 0
        && index.columns.as_slice() == columns
        && index.order.digits == 0
        && index.is_unique == is_unique
}

/// Whether the indexes are those that every store of rows has.
fn are_first_indexes(indexes: &[Index]) -> bool
    ensures { IsTrue result → indexes.now ≡ key_index ∷ above_index ∷ [] }
{
    let [key, above] = indexes else {
        return false;
    };
    is_index(key, b"sqlite_autoindex_kept_1", 1, &[1, 2, 3], true)
        && is_index(above, b"kept_above", 3, &[1, 2, 4, 3], false)
}

/// Whether the indexes are those by which studies are found.
fn are_study_indexes(indexes: &[Index]) -> bool
    ensures { IsTrue result → indexes.now ≡ patient_index ∷ day_index ∷ [] }
{
    let [patient, day] = indexes else {
        return false;
    };
    is_index(patient, b"kept_patient", 4, &[1, 2, 5, 3], false)
        && is_index(day, b"kept_day", 5, &[1, 2, 6, 3], false)
}

/// Whether the indexes are the one by which entries are found that wait.
fn are_entry_indexes(indexes: &[Index]) -> bool
    ensures { IsTrue result → indexes.now ≡ started_index ∷ [] }
{
    let [started] = indexes else {
        return false;
    };
    is_index(started, b"kept_started", 6, &[1, 2, 8, 3], false)
}

/// Whether the indexes are those that version 2 has further.
fn are_indexes_of_two(indexes: &[Index]) -> bool
    ensures { IsTrue result → indexes.now ≡ further_indexes Two }
{
    if indexes.len() < 2 {
        return false;
    }
    let (studies, entries) = indexes.split_at(2);
    are_study_indexes(studies) && are_entry_indexes(entries)
}

/// Whether the indexes are those that the version has further.
fn are_further_indexes(indexes: &[Index], version: Version) -> bool
    ensures { IsTrue result → indexes.now ≡ further_indexes version }
{
    match version {
        Version::One => indexes.is_empty(),
        Version::Two => are_indexes_of_two(indexes),
    }
}

/// Whether the indexes are those of a store of the version.
fn are_indexes(indexes: &[Index], version: Version) -> bool
    ensures { IsTrue result → indexes.now ≡ key_index ∷ above_index ∷ further_indexes version }
{
    if indexes.len() < 2 {
        return false;
    }
    let (first, further) = indexes.split_at(2);
    are_first_indexes(first) && are_further_indexes(further, version)
}

/// Whether a store has the indexes of a store of the version, and no views.
fn has_others(schema: &Schema, version: Version) -> bool
    ensures { IsTrue result → HasOthers version schema.now }
{
    are_indexes(schema.indexes.as_slice(), version) && schema.views.as_slice().is_empty()
}

/// The version whose tables and indexes a store has, where it has nothing else.
#[tactic(auto, unfolding(crate::specs::Schema::schema_of))]
pub(crate) fn version_shaped(schema: &Schema) -> Option<Version>
    ensures { IfSome result (λ version. schema.now ≡ schema_of version) }
{
    let [kept, says] = schema.tables.as_slice() else {
        return None;
    };
    let version = kept_version(kept)?;
    if is_version(says) && has_others(schema, version) {
        Some(version)
    } else {
        None
    }
}
