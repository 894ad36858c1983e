//! The parts of a C-STORE's data set that are kept.
ghost use Rattle.std.specs.Prelude.{◌≡◌, IfOk, IfSome, option_map};
ghost use Rattle.dq_list.specs.Readers.{only_if};
ghost use Rattle.dq_dataset.specs.declared.header.Syntax.TheVariants.{Explicit};
ghost use Rattle.dq_dataset.specs.Canonical.{HasLengths};
ghost use Rattle.dq_tables.specs.Rows.{row_of};
ghost use Rattle.dq_store.specs.CStore.{instance_in, names_instance, cut_record, study_record, series_record, image_record};
ghost use Rattle.dq_store.specs.Views.{instance_of, HasUids};

use dq_dataset::laws::editing_law;
use dq_dataset::{DataSet, Syntax, write};
use dq_dimse::Command;
use dq_tables::{Kind, RecordKeys, Row, uid_at};
use dq_vr::study_root::{image_attributes, series_attributes, study_attributes};
use dq_vr::{Tag, tags};
use std::alloc::{AllocError, Global};

/// The attributes that are kept of a data set, with the UIDs of its study, its series and its image.
#[derive(Clone, Copy)]
pub(crate) struct Instance<'a> {
    pub(crate) data_set: &'a DataSet,
    /// Whether another element was sent.
    pub(crate) other: bool,
    pub(crate) study: &'a [u8],
    pub(crate) series: &'a [u8],
    pub(crate) image: &'a [u8],
}

impl<'a> Instance<'a> {
    /// That of a data set that has each UID exactly once, and that is what the command says.
    #[tactic(auto, unfolding(crate::specs::CStore::names_instance))]
    pub(crate) fn of(command: &Command, data_set: &'a DataSet, other: bool) -> Option<Instance<'a>>
        ensures named { option_map instance_of result
            ≡ only_if (names_instance command.now data_set.now) (instance_in data_set.now) }
        ensures uids { IfSome result (λ sent. HasUids sent) }
        ensures other { IfSome result (λ sent. sent.other ≡ other) }
        ensures data_set { IfSome result (λ sent. sent.data_set.now ≡ data_set.now) }
    {
        let class = uid_at(data_set, tags::SOP_CLASS_UID)?;
        let image = uid_at(data_set, tags::SOP_INSTANCE_UID)?;
        if class != command.sop_class.as_slice() || image != command.sop_instance.as_slice() {
            return None;
        }
        let study = uid_at(data_set, tags::STUDY_INSTANCE_UID)?;
        let series = uid_at(data_set, tags::SERIES_INSTANCE_UID)?;
        Some(Instance {
            data_set,
            other,
            study,
            series,
            image,
        })
    }

    /// The row that is kept of its study.
    pub(crate) fn study_row(&self, alloc: Global, name: &[u8]) -> Result<Row, AllocError>
        requires { HasLengths Explicit self.now.data_set.now }
        ensures { IfOk result (λ row. row ≡ row_of name.now (study_record (instance_of self.now))) }
    {
        let keys = RecordKeys {
            kind: Kind::Study,
            key: self.study,
            above: &[],
        };
        self.row(alloc, name, &keys, study_attributes())
    }

    /// The row that is kept of its series.
    pub(crate) fn series_row(&self, alloc: Global, name: &[u8]) -> Result<Row, AllocError>
        requires { HasLengths Explicit self.now.data_set.now }
        ensures { IfOk result (λ row.
            row ≡ row_of name.now (series_record (instance_of self.now))) }
    {
        let keys = RecordKeys {
            kind: Kind::Series,
            key: self.series,
            above: self.study,
        };
        self.row(alloc, name, &keys, series_attributes())
    }

    /// The row that is kept of its image.
    pub(crate) fn image_row(&self, alloc: Global, name: &[u8]) -> Result<Row, AllocError>
        requires { HasLengths Explicit self.now.data_set.now }
        ensures { IfOk result (λ row. row ≡ row_of name.now (image_record (instance_of self.now))) }
    {
        let keys = RecordKeys {
            kind: Kind::Image,
            key: self.image,
            above: self.series,
        };
        self.row(alloc, name, &keys, image_attributes())
    }

    /// The row of those attributes that are listed.
    fn row(
        &self,
        alloc: Global,
        name: &[u8],
        keys: &RecordKeys<'_>,
        tags: &[Tag],
    ) -> Result<Row, AllocError>
        requires { HasLengths Explicit self.now.data_set.now }
        ensures { IfOk result (λ row. row ≡ row_of name.now (cut_record keys.now.kind
            keys.now.key.now keys.now.above.now tags.now self.now.data_set.now)) }
    {
        editing_law();
        let kept = self.data_set.cut_out(alloc, tags)?;
        let octets = write(alloc, &kept, Syntax::Explicit)?;
        Row::new(alloc, name, keys, octets)
    }
}
