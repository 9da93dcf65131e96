//! Where a path leads (path_resolution(7), narrowed).
ghost use Rattle.std.specs.Prelude.{◌≡◌, ℕ, List, true, false, Some, Ok, Err, option_copied, IfOk, IfErr, IfSome};
ghost use Rattle.std.specs.Option.{option_map};
ghost use Rattle.std.specs.List.{slice_split};
ghost use Rattle.qplain.specs.Walk.{components, follow, is_slash, last_name, walk};
ghost use Rattle.qplain.specs.Renames.{meets};
ghost use Rattle.qplain.specs.State.{Inode, State, inode_at, is_directory, named};
ghost use Rattle.qplain.specs.Use.{links_of};
ghost use Rattle.qplain.specs.Attempt.{Attempt, Refuse, at_path, in_parent};
ghost use Rattle.qstore_tree.specs.Nodes.{inode_of};
ghost use Rattle.qstore_tree.specs.TreeOf.{IsTreeOf};
ghost use Rattle.qstore_walk.specs.Paths.{name_in};
ghost use Rattle.qstore_walk.specs.Parents.{parent};

use crate::path::{cut, names_of};
use qplain::{ROOT, Refusal};
use qstore_tree::{Node, Tree};

/// A directory, and a name in it or for it.
#[derive(Clone, Copy)]
struct Step<'a> {
    dir: u64,
    name: &'a str,
}

/// The last component of a path: its parent, which is the directory that the others lead to, its name, and what that
/// leads to.
#[derive(Clone, Copy)]
pub struct LastComponent<'a> {
    pub dir: u64,
    pub name: &'a str,
    pub leads_to: Option<u64>,
}

/// The inode that a path leads to.
#[derive(Clone, Copy)]
pub struct Found<'a> {
    pub number: u64,
    pub node: &'a Node,
}

/// What a name leads to, if it is there, or ENOTDIR where it is looked for in no directory.
fn look(tree: &Tree, dir: u64, name: &str) -> Result<Option<u64>, Refusal>
    ensures found { IfOk result (λ found. (S : State) → IsTreeOf S tree.now
        → (is_directory S dir ≡ true) × (found ≡ named S dir name.now)) }
    ensures fault { IfErr result (λ refusal. (S : State) → IsTreeOf S tree.now
        → (is_directory S dir ≡ false) × (refusal ≡ Refusal.ENOTDIR)) }
{
    match tree.names_in(dir) {
        Some(names) => Ok(names.get(name)),
        None => Err(Refusal::ENOTDIR),
    }
}

/// One step of a walk.
fn follow(tree: &Tree, dir: u64, name: &str) -> Result<u64, Refusal>
    ensures { (S : State) → IsTreeOf S tree.now → result ≡ follow S (Ok dir) name.now }
{
    match look(tree, dir, name)? {
        Some(number) => Ok(number),
        None => Err(Refusal::ENOENT),
    }
}

/// The number of the inode that a path leads to.
fn walk(tree: &Tree, path: &str) -> Result<u64, Refusal>
    ensures { (S : State) → IsTreeOf S tree.now → result ≡ walk S (components path.now) }
{
    let mut reached = ROOT;
    let mut behind = names_of(path);
    while let Some(names) = behind {
        let (name, rest) = cut(names);
        reached = follow(tree, reached, name)?;
        behind = rest;
    }
    Ok(reached)
}

/// Whether the walk to the parent of a path's last component comes past this inode, or ends there.
pub(crate) fn meets(tree: &Tree, path: &str, number: u64) -> bool
    ensures { (S : State) → IsTreeOf S tree.now → result ≡ meets S (components path.now) number }
{
    let mut reached = ROOT;
    let mut behind = names_of(path);
    while let Some(names) = behind {
        let (name, rest) = cut(names);
        if reached == number {
            return true;
        }
        reached = match follow(tree, reached, name) {
            Ok(next) => next,
            Err(_) => return false,
        };
        behind = rest;
    }
    false
}

/// What the names of a path but the last lead to, and that last name.
fn parent<'a>(tree: &Tree, names: &'a str) -> Result<Step<'a>, Refusal>
    ensures dir { IfOk result (λ step. (S : State) → IsTreeOf S tree.now
        → parent S (slice_split is_slash names.now) ≡ Ok step.dir) }
    ensures name { IfOk result (λ step. last_name (slice_split is_slash names.now) ≡ Some step.name.now) }
    ensures fault { IfErr result (λ refusal. (S : State) → IsTreeOf S tree.now
        → parent S (slice_split is_slash names.now) ≡ Err refusal) }
{
    let mut dir = ROOT;
    let (mut name, mut behind) = cut(names);
    while let Some(rest) = behind {
        dir = follow(tree, dir, name)?;
        (name, behind) = cut(rest);
    }
    Ok(Step { dir, name })
}

/// The inode of this number, with its link count. O(1), where numbers do not collide.
pub fn inode(tree: &Tree, number: u64) -> Option<&Node>
    ensures there { (S : State) → IsTreeOf S tree.now
        → option_map inode_of (option_copied result) ≡ inode_at S number }
    ensures links { IfSome result (λ node. (S : State) → IsTreeOf S tree.now
        → node.now.links ≡ links_of S number (inode_of node.now).dir) }
{
    tree.node(number)
}

/// The inode that a path leads to, with its link count: one look-up of an inode and of a name for each component.
#[inline(always)]
pub fn find<'a>(tree: &'a Tree, path: &str) -> Result<Found<'a>, Refusal>
    ensures there { IfOk result (λ found. (S : State) → IsTreeOf S tree.now
        → inode_at S found.number ≡ Some (inode_of found.node.now)) }
    ensures found { IfOk result (λ found. (S : State) → IsTreeOf S tree.now → (try : ℕ → Inode → Attempt)
        → at_path S try path.now ≡ try found.number (inode_of found.node.now)) }
    ensures links { IfOk result (λ found. (S : State) → IsTreeOf S tree.now
        → found.node.now.links ≡ links_of S found.number (inode_of found.node.now).dir) }
    ensures fault { IfErr result (λ refusal. (S : State) → IsTreeOf S tree.now → (try : ℕ → Inode → Attempt)
        → at_path S try path.now ≡ Refuse refusal) }
{
    let number = walk(tree, path)?;
    match inode(tree, number) {
        Some(node) => Ok(Found { number, node }),
        None => Err(Refusal::ENOENT),
    }
}

/// The last component of a path, which is another than `/`: of that, it is the refusal that is handed in.
pub fn last_component<'a>(
    tree: &Tree,
    path: &'a str,
    of_root: Refusal,
) -> Result<LastComponent<'a>, Refusal>
    ensures directory { IfOk result (λ last. (S : State) → IsTreeOf S tree.now
        → is_directory S last.dir ≡ true) }
    ensures leads_to { IfOk result (λ last. (S : State) → IsTreeOf S tree.now
        → last.leads_to ≡ named S last.dir last.name.now) }
    ensures name { IfOk result (λ last. name_in path.now ≡ last.name.now) }
    ensures found { IfOk result (λ last. (S : State) → IsTreeOf S tree.now → (try : ℕ → List ℕ → Attempt)
        → in_parent S of_root try path.now ≡ try last.dir last.name.now) }
    ensures fault { IfErr result (λ refusal. (S : State) → IsTreeOf S tree.now → (try : ℕ → List ℕ → Attempt)
        → in_parent S of_root try path.now ≡ Refuse refusal) }
{
    let Some(names) = names_of(path) else {
        return Err(of_root);
    };
    let Step { dir, name } = match parent(tree, names) {
        Ok(step) => step,
        Err(refusal) => return Err(refusal),
    };
    let leads_to = look(tree, dir, name)?;
    Ok(LastComponent {
        dir,
        name,
        leads_to,
    })
}
