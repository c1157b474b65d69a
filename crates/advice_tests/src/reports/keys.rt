//! The keys of a catalogue.
use catalogue::KeyField;

pub(crate) const KEYS: [KeyField; 24] = [
    KeyField::Itself,
    KeyField::Version,
    KeyField::SeqPage,
    KeyField::RandPage,
    KeyField::RowCpu,
    KeyField::SortCpu,
    KeyField::MergeCpu,
    KeyField::HashCpu,
    KeyField::GroupCpu,
    KeyField::Name,
    KeyField::Rows,
    KeyField::Pages,
    KeyField::MayCluster,
    KeyField::Columns,
    KeyField::Indexes,
    KeyField::Kind,
    KeyField::Width,
    KeyField::Distinct,
    KeyField::Low,
    KeyField::High,
    KeyField::Bounds,
    KeyField::Keys,
    KeyField::Unique,
    KeyField::Clustered,
];
