//! The owners of what is made, and those that a chown names.
ghost use Rattle.std.specs.Prelude.{◌≡◌};
ghost use Rattle.qplain.specs.State.{new_directory, root};
ghost use Rattle.qplain.specs.Owners.{renewed};
ghost use Rattle.qstore_walk.specs.Owners.{caller_owners};

use qplain::{Cred, Owners, Setup};

/// The owners of what a caller makes in a directory of this project, if it is of one.
pub fn caller_owners(cred: &Cred, project: Option<u32>) -> Owners
    ensures { result ≡ caller_owners cred.now project }
{
    Owners {
        uid: cred.uid(),
        gid: cred.gid(),
        project,
    }
}

/// The owners of the root directory: id 0 of each kind that is declared.
pub fn root_owners(setup: &Setup) -> Owners
    ensures { new_directory result ≡ root setup.now }
{
    let project = match setup.projects() {
        [] => None,
        [_, ..] => Some(0),
    };
    Owners {
        uid: 0,
        gid: 0,
        project,
    }
}

/// The owners with those that are named.
pub fn renewed(uid: Option<u32>, gid: Option<u32>, project: Option<u32>, owners: Owners) -> Owners
    ensures { result ≡ renewed uid gid project owners }
{
    Owners {
        uid: uid.unwrap_or(owners.uid),
        gid: gid.unwrap_or(owners.gid),
        project: project.or(owners.project),
    }
}
