//! Laws of users' systems, each a call that does nothing.

ghost use Rattle.system_files.specs.SystemFiles.{NamesTakeOnePair};
ghost use Rattle.system_files.specs.UserSystems.{NamesMeanOneSystem};

/// A system in a direction has one pair of files.
pub fn names_take_one_pair()
    ensures { NamesTakeOnePair }
{}

/// A name means one system at most, in one direction.
pub fn names_mean_one_system()
    ensures { NamesMeanOneSystem }
{}
