//! Laws of permissions.

ghost use Rattle.permissions.specs.Rows.{WorkedAddresses, WorkedPermissions, WorkedDigests};

/// The definitions, evaluated on entries and ids that were worked out by hand.
pub fn worked_permissions()
    ensures addresses { WorkedAddresses }
    ensures permissions { WorkedPermissions }
    ensures digests { WorkedDigests }
{}
