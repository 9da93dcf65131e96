//! Another name for an inode: what has the first, where the second is to stand, and why it may not have it (rename(2)).
ghost use Rattle.std.specs.Prelude.{◌≡◌, ◌==◌, ◌&&◌, true, not, Some, IfErr, IfOk};
ghost use Rattle.std.specs.Option.{IsSome};
ghost use Rattle.qplain.specs.declared.refusal.Refusal.TheVariants.{EBUSY};
ghost use Rattle.qplain.specs.Attempt.{Refuse, in_parent};
ghost use Rattle.qplain.specs.Caller.{Caller};
ghost use Rattle.qplain.specs.Renames.{meets, passes, rename_as, rename_from};
ghost use Rattle.qplain.specs.State.{Inode, State, inode_at, is_directory, named};
ghost use Rattle.qplain.specs.Walk.{components};
ghost use Rattle.qstore_tree.specs.Nodes.{inode_of, is_dir_content};
ghost use Rattle.qstore_tree.specs.TreeOf.{IsTreeOf};
ghost use Rattle.qstore_walk.specs.Paths.{name_in};
ghost use Rattle.qstore_walk.specs.Faults.{adds_too_many, rename_fault};

use crate::directory::{has_all_links, leads_to_directory, leads_to_file, leads_to_names};
use crate::rights::{is_kept, may_remove};
use crate::walk::{LastComponent, inode, last_component, meets};
use qplain::{Cred, Refusal};
use qstore_tree::{Content, Node, Tree};

/// An inode, the directory of its name, and the last component of the path that it is to have.
#[derive(Clone, Copy)]
pub struct Renaming<'a> {
    pub dir: u64,
    pub number: u64,
    pub to: LastComponent<'a>,
}

/// What the last component of the first path leads to, and that of the second: ENOENT, and the faults of both walks.
pub fn find_renaming<'a>(tree: &Tree, from: &str, to: &'a str) -> Result<Renaming<'a>, Refusal>
    ensures led { IfOk result (λ new. (S : State) → IsTreeOf S tree.now
        → named S new.dir (name_in from.now) ≡ Some new.number) }
    ensures directory { IfOk result (λ new. (S : State) → IsTreeOf S tree.now → is_directory S new.to.dir ≡ true) }
    ensures leads_to { IfOk result (λ new. (S : State) → IsTreeOf S tree.now
        → new.to.leads_to ≡ named S new.to.dir new.to.name.now) }
    ensures found { IfOk result (λ new. (S : State) → IsTreeOf S tree.now → (cred : Caller) (inode : Inode)
        → inode_at S new.number ≡ Some inode → in_parent S EBUSY (rename_from S cred to.now) from.now
        ≡ rename_as S cred to.now new.dir (name_in from.now) new.number inode new.to.dir new.to.name.now) }
    ensures there { IfOk result (λ new. (S : State) → IsTreeOf S tree.now → IsSome (inode_at S new.number)) }
    ensures fault { IfErr result (λ refusal. (S : State) → IsTreeOf S tree.now → (cred : Caller)
        → in_parent S EBUSY (rename_from S cred to.now) from.now ≡ Refuse refusal) }
{
    let last = last_component(tree, from, Refusal::EBUSY)?;
    let Some(number) = last.leads_to else {
        return Err(Refusal::ENOENT);
    };
    if inode(tree, number).is_none() {
        return Err(Refusal::ENOENT);
    }
    let to = last_component(tree, to, Refusal::EBUSY)?;
    Ok(Renaming {
        dir: last.dir,
        number,
        to,
    })
}

/// Whether the name that an inode is to have is one that it has.
pub fn is_its_own(new: &Renaming) -> bool
    ensures { result ≡ passes (λ number. number == new.now.number) new.now.to.leads_to }
{
    match new.to.leads_to {
        Some(number) => number == new.number,
        None => false,
    }
}

/// Why an inode may not have another name, which leads to another inode or to none: EINVAL, ENOTDIR or EISDIR, EPERM,
/// ENOTEMPTY, EMLINK.
pub fn rename_fault(
    tree: &Tree,
    cred: &Cred,
    to: &str,
    new: &Renaming,
    node: &Node,
) -> Option<Refusal>
    ensures { (S : State) → IsTreeOf S tree.now → inode_at S new.now.number ≡ Some (inode_of node.now)
        → is_directory S new.now.to.dir ≡ true → result ≡ rename_fault S cred.now (components to.now) new.now.dir
        new.now.number (is_dir_content node.now.content) new.now.to.dir new.now.to.leads_to }
{
    let is_dir = matches!(node.content, Content::Directory(_));
    if comes_below(tree, is_dir, to, new.number) {
        Some(Refusal::EINVAL)
    } else if is_onto_file(tree, is_dir, new.to.leads_to) {
        Some(Refusal::ENOTDIR)
    } else if is_onto_directory(tree, is_dir, new.to.leads_to) {
        Some(Refusal::EISDIR)
    } else if !may_remove(tree, cred, new.dir, new.number, node) {
        Some(Refusal::EPERM)
    } else if is_kept(tree, cred, new.to.dir, new.to.leads_to) {
        Some(Refusal::EPERM)
    } else if leads_to_names(tree, new.to.leads_to) {
        Some(Refusal::ENOTEMPTY)
    } else if adds_too_many(tree, is_dir, new) {
        Some(Refusal::EMLINK)
    } else {
        None
    }
}

/// Whether a directory would come to stand in itself, or below.
fn comes_below(tree: &Tree, is_dir: bool, to: &str, number: u64) -> bool
    ensures { (S : State) → IsTreeOf S tree.now → result ≡ (is_dir && meets S (components to.now) number) }
{
    is_dir && meets(tree, to, number)
}

/// Whether a directory would take the place of a file.
fn is_onto_file(tree: &Tree, is_dir: bool, leads_to: Option<u64>) -> bool
    ensures { (S : State) → IsTreeOf S tree.now
        → result ≡ (is_dir && passes (λ number. not (is_directory S number)) leads_to) }
{
    is_dir && leads_to_file(tree, leads_to)
}

/// Whether a file would take the place of a directory.
fn is_onto_directory(tree: &Tree, is_dir: bool, leads_to: Option<u64>) -> bool
    ensures { (S : State) → IsTreeOf S tree.now
        → result ≡ (not is_dir && passes (λ number. is_directory S number) leads_to) }
{
    !is_dir && leads_to_directory(tree, leads_to)
}

/// Whether a rename makes a link too many of the directory that the inode comes to.
fn adds_too_many(tree: &Tree, is_dir: bool, new: &Renaming) -> bool
    ensures { (S : State) → IsTreeOf S tree.now → is_directory S new.now.to.dir ≡ true
        → result ≡ adds_too_many S new.now.dir is_dir new.now.to.dir new.now.to.leads_to }
{
    is_dir && new.dir != new.to.dir && new.to.leads_to.is_none() && has_all_links(tree, new.to.dir)
}
