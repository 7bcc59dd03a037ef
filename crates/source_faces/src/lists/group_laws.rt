//! A law of records in order, as the contract of a function that does nothing.

ghost use Rattle.source_faces.specs.Groups.{FacesAreGroups, RecordsAreGroups};

/// Where records ascend, or where their faces do, those of each source face stand together: they begin behind those of the
/// faces before it, and end where those of the next one begin.
pub fn records_are_groups()
    ensures records { RecordsAreGroups }
    ensures faces { FacesAreGroups }
{}
