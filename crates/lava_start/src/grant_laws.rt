// What of others a package may name by what it is granted: laws alone.

ghost use Rattle.lava_start.specs.Grants.{Granted_names_stand_behind, Package_names_all, Package_names_known, Root_is_granted_all};

/// What a package names of others is among its names, whatever it is granted.
#[tactic(none)]
pub fn package_names_are_all()
    ensures { Package_names_all }
{}

/// Each name of a package is an object that the host has from the start, or the global of the application's own package.
#[tactic(none)]
pub fn package_names_are_known()
    ensures { Package_names_known }
{}

/// The application's own package, which is granted the whole host, has its global alone.
#[tactic(none)]
pub fn root_is_granted_all()
    ensures { Root_is_granted_all }
{}

/// Where granted names differ from each other and from those of intrinsics, the global has the intrinsics and then what is granted.
#[tactic(none)]
pub fn granted_names_stand_behind()
    ensures { Granted_names_stand_behind }
{}
