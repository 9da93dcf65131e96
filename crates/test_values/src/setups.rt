//! Setups that no configuration writes: without a block, and with names of another form.

use qplain::{NoMemory, Principal, Setup, SetupFault};
use qrules::{Graces, Limits, PrincipalName};
use std::alloc::Global;

const GRACES: Graces = Graces {
    block: 100,
    inode: 100,
};

const NO_LIMITS: Limits = Limits {
    block_soft: 0,
    block_hard: 0,
    inode_soft: 0,
    inode_hard: 0,
};

/// A principal of this id and name, without limits.
fn named(alloc: Global, id: u32, name: &str) -> Result<Principal, NoMemory> {
    Ok(Principal {
        id,
        name: PrincipalName::new(String::from_str(alloc, name)?),
        limits: NO_LIMITS,
    })
}

/// A setup of N blocks and 6 inodes, with two users and one group.
fn setup(
    alloc: Global,
    blocks: u64,
    users: [(u32, &str); 2],
    group: &str,
) -> Result<Result<Setup, SetupFault>, NoMemory> {
    let [(first, first_name), (second, second_name)] = users;
    let mut all = Vec::new(alloc);
    all.push(named(alloc, first, first_name)?)?;
    all.push(named(alloc, second, second_name)?)?;
    let mut groups = Vec::new(alloc);
    groups.push(named(alloc, 0, group)?)?;
    Ok(Setup::new(blocks, 6, GRACES, all, groups, Vec::new(alloc)))
}

/// A list of id 0 alone.
fn alone(alloc: Global, name: &str) -> Result<Vec<Principal>, NoMemory> {
    let mut principals = Vec::new(alloc);
    principals.push(named(alloc, 0, name)?)?;
    Ok(principals)
}

// In a configuration such a name is a fault of its field, before there is a setup.
#[test]
fn names_of_projects_have_the_same_form(rt: HostRuntime) -> Result<(), NoMemory> {
    let alloc = rt.alloc();
    let (users, groups) = (alone(alloc, "root")?, alone(alloc, "root")?);
    let setup = Setup::new(1, 6, GRACES, users, groups, alone(alloc, "Ann")?);
    assert_eq!(rt; setup.err(), Some(SetupFault::Range));
    Ok(())
}

/// What is wrong with a setup of user 0, a second user and one group.
fn fault(
    alloc: Global,
    blocks: u64,
    second: (u32, &str),
    group: &str,
) -> Result<Option<SetupFault>, NoMemory> {
    Ok(setup(alloc, blocks, [(0, "root"), second], group)?.err())
}

// Each row but the first two has a number or a name out of range, which is reported before what else is wrong.
#[test]
fn blocks_and_names_have_ranges(rt: HostRuntime) -> Result<(), NoMemory> {
    for (blocks, second, group, is_taken) in [
        (1, (7, "z0-9_"), "r", true),
        (1, (7, "sixteen_letters_"), "root", true),
        (0, (7, "ann"), "root", false),
        (1, (7, "seventeen_letters"), "root", false),
        (1, (7, ""), "root", false),
        (1, (7, "1ab"), "root", false),
        (1, (7, "_ab"), "root", false),
        (1, (7, "Ann"), "root", false),
        (1, (7, "aNn"), "root", false),
        (1, (7, "an n"), "root", false),
        (1, (7, "ann."), "root", false),
        (1, (0, "Bob"), "root", false),
        (1, (0, "root"), "0", false),
    ] {
        let wanted = if is_taken {
            None
        } else {
            Some(SetupFault::Range)
        };
        let found = fault(rt.alloc(), blocks, second, group)?;
        assert_eq!(rt; found, wanted, "at {second:?} {group}");
    }
    Ok(())
}
