//! Leaders: of the classes with the same name, the one under which their events are counted.
ghost use Rattle.std.specs.Prelude.{◌≡◌, ◌<◌, ℕ, List, length, IfOk, IfSome};
ghost use Rattle.jfr_layout.specs.Classes.{Classes};
ghost use Rattle.jfr_meta.specs.Attributes.{text_at};
ghost use Rattle.jfr_show.specs.Counting.{AreLeaders, AreNamed, HasName, leader_of};

use jfr_base::NoMemory;
use jfr_chunk::Chunk;
use jfr_layout::Classes;
use std::alloc::Global;
use std::collections::BTreeMap;

/// The index of the leader of each class of a chunk: the first class that is named by the same string. Many
/// classes may share a long name; then it is looked up only once, for their leader.
pub(crate) fn class_leaders(alloc: Global, chunk: &Chunk<'_>) -> Result<Vec<usize>, NoMemory>
    ensures ok { IfOk result (λ leaders. AreLeaders chunk.now.classes leaders.items) }
{
    let classes = chunk.class_names(alloc)?;
    let mut named = BTreeMap::new(alloc);
    let mut leaders = Vec::new(alloc);
    for (index, class) in classes.iter().enumerate() {
        let leader = first_named(&mut named, class.name, index)?;
        leaders.push(leader)?;
    }
    Ok(leaders)
}

/// The index of the first class that this string names. It names the class with this index.
fn first_named(
    named: &mut BTreeMap<u64, usize>,
    string: u64,
    index: usize,
) -> Result<usize, NoMemory>
    ensures ok { (k : Classes) (texts : List (List ℕ)) → AreNamed k texts named.old → HasName k (text_at texts string) index
        → IfOk result (λ first. HasName k (text_at texts string) first × AreNamed k texts named.new) }
{
    if let Some(first) = named.get(&string) {
        return Ok(*first);
    }
    named.insert(string, index)?;
    Ok(index)
}

/// The index of the leader of the class with this id; `None` exactly if records of this type are not events.
#[inline(always)]
pub(crate) fn leader_of(classes: &Classes, leaders: &[usize], id: u64) -> Option<usize>
    requires { AreLeaders classes.now leaders.now }
    ensures exact { result ≡ leader_of classes.now leaders.now id }
    ensures within { IfSome result (λ leader. leader < length classes.now) }
{
    let layout = classes.event_layout(id)?;
    Some(leaders[layout.class_index])
}
