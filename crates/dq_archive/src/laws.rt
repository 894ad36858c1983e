//! Laws of an archive as it was. Each function's contract is a law; its body changes nothing.
ghost use Rattle.std.specs.Prelude.{◌≡◌, ◌++◌, List, Option};
ghost use Rattle.dq_tables.specs.declared.row.Row.{Row};
ghost use Rattle.dq_tables.specs.declared.change.Change.{Change};
ghost use Rattle.dq_tables.specs.declared.change.Change.TheVariants.{Stored};
ghost use Rattle.dq_tables.specs.Rows.{IsRising, of, after, operation_of, institution_of};
ghost use Rattle.dq_tables.specs.Sound.{IsSound, ChangeFits, FitsStored};
ghost use Rattle.dq_archive.specs.declared.additions.Addition.{Addition};
ghost use Rattle.dq_archive.specs.Additions.{lasting_records, without, added_by};

/// A change leaves the studies, the series and the images that there were as they were: those that
/// there are, without those that it adds. An image that is stored leaves all records so.
#[tactic(auto, using(crate::proofs::AddedRecords::change_left_out, crate::proofs::AddedRecords::stored_added))]
pub fn what_was_there_stays_as_it_was()
    ensures lasting { (later : List Addition) (change : Change) (rows : List Row) → IsSound rows
        → ChangeFits rows change → lasting_records (without (later ++ added_by change)
        (of (institution_of change) (after (operation_of change) rows)))
        ≡ lasting_records (without later (of (institution_of change) rows)) }
    ensures stored { (study series : Option Row) (image : Row) (rows : List Row) → IsRising rows
        → FitsStored rows study series image → without (added_by (Stored study series image))
        (of image.inst (after (operation_of (Stored study series image)) rows))
        ≡ of image.inst rows }
{}
