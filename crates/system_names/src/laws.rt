//! Laws of the names, each a call that does nothing.
ghost use Rattle.system_names.specs.Names.{NamesDetermineSystems};
ghost use Rattle.system_names.specs.UserNames.{UserNamesDetermineSystems, UserNamesAreNotBuiltIn};

/// A name is that of one kind of system in one direction, at most.
pub fn names_determine_systems()
    ensures { NamesDetermineSystems }
{}

/// A name is that of one system of a user in one direction, at most.
pub fn user_names_determine_systems()
    ensures { UserNamesDetermineSystems }
{}

/// The name of a user's system is that of none that is built in.
pub fn user_names_are_not_built_in()
    ensures { UserNamesAreNotBuiltIn }
{}
