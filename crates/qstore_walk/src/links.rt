//! A further name for a file: the file, where the name is to stand, and why it may not have it (link(2)).
ghost use Rattle.std.specs.Prelude.{◌≡◌, true, None, IfErr, IfOk};
ghost use Rattle.qplain.specs.Attempt.{Becomes, Refuse, at_path};
ghost use Rattle.qplain.specs.Names.{link_to, with_name};
ghost use Rattle.qplain.specs.State.{State, is_directory, named};
ghost use Rattle.qplain_laws.specs.Laws.{IsLawful};
ghost use Rattle.qstore_tree.specs.Nodes.{is_dir_content};
ghost use Rattle.qstore_tree.specs.TreeOf.{IsFile, IsTreeOf};
ghost use Rattle.qstore_walk.specs.Faults.{link_fault};

use crate::walk::{Found, find, last_component};
use qplain::{MAX_LINKS, Refusal};
use qstore_tree::{Content, Node, Tree};

/// A file, and its further name, in the directory where that is to stand.
#[derive(Clone, Copy)]
pub struct FurtherName<'a> {
    pub number: u64,
    pub dir: u64,
    pub name: &'a str,
}

/// What is wrong with a further name of this inode, where that leads to an inode or to none: EPERM, EEXIST, EMLINK.
fn link_fault(node: &Node, leads_to: Option<u64>) -> Option<Refusal>
    ensures { result ≡ link_fault (is_dir_content node.now.content) leads_to node.now.links }
{
    if matches!(node.content, Content::Directory(_)) {
        Some(Refusal::EPERM)
    } else if leads_to.is_some() {
        Some(Refusal::EEXIST)
    } else if node.links >= MAX_LINKS {
        Some(Refusal::EMLINK)
    } else {
        None
    }
}

/// The file that the first path leads to, and the last component of the second, where the file may have it as a further
/// name.
pub fn further_name<'a>(tree: &Tree, from: &str, to: &'a str) -> Result<FurtherName<'a>, Refusal>
    ensures file { IfOk result (λ new. (S : State) → IsTreeOf S tree.now → IsFile S new.number) }
    ensures directory { IfOk result (λ new. (S : State) → IsTreeOf S tree.now → is_directory S new.dir ≡ true) }
    ensures absent { IfOk result (λ new. (S : State) → IsTreeOf S tree.now → named S new.dir new.name.now ≡ None) }
    ensures becomes { IfOk result (λ new. (S : State) → IsTreeOf S tree.now → IsLawful S
        → at_path S (link_to S to.now) from.now ≡ Becomes (with_name S new.dir new.name.now new.number) new.number) }
    ensures fault { IfErr result (λ refusal. (S : State) → IsTreeOf S tree.now → IsLawful S
        → at_path S (link_to S to.now) from.now ≡ Refuse refusal) }
{
    let Found { number, node } = find(tree, from)?;
    let last = last_component(tree, to, Refusal::EEXIST)?;
    match link_fault(node, last.leads_to) {
        Some(refusal) => Err(refusal),
        None => Ok(FurtherName {
            number,
            dir: last.dir,
            name: last.name,
        }),
    }
}
