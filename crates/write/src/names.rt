// The last step that touches a name, by links from each step to the previous step of its name.
ghost use Rattle.std.specs.Prelude.{◌≡◌, ◌+◌, ◌<◌, ◌≤◌, length, get_or};
ghost use Rattle.tree.specs.Stack.{touched};
ghost use Rattle.ends.specs.Shapes.{Named};
ghost use Rattle.write.specs.Work.{most_steps, work_length, stack_of};
ghost use Rattle.write.specs.Links.{link_to, last_in, SomeLinks, link_step};

use crate::LINKS;

// A name as it stands in a text, 03 k or 11 a, deliberately of either sort: both bytes are copied as they are, and only `ends::cell_of` makes a cell of them.
#[derive(Clone, Copy)]
pub struct Name {
    pub code: u8,
    pub number: u8,
}

// The step that a link names: it holds one more than the step's index, or 0 for none.
#[tactic(auto, unfolding(crate::specs::Links::link_to))]
pub fn linked(link: u16) -> Option<usize>
    ensures { link_to result ≡ link }
{
    (link as usize).checked_sub(1)
}

// The index of the last of h steps that touches a name: from the name's last step down its links.
// Inner: the work array holds offsets of steps, with their links.
pub fn find(edit: &[u8], work: &[u16], h: usize, of: Name) -> Option<usize>
    requires { SomeLinks edit.now work.now h × Named of.code of.number }
    ensures { (link_to result ≡ last_in edit.now (stack_of work.now) h of.code of.number) × (link_to result ≤ h) }
{
    let c = of.code;
    let k = of.number;
    let i = ends::cell_of(c, k);
    let mut j = work[i];
    while j as usize > h {
        j = work[LINKS + (j as usize - 1)];
    }
    linked(j)
}

// Links the step at `at`, which is on top of h others, to the previous step of its name.
// Inner: a step stands there.
pub fn link(edit: &[u8], at: usize, work: &mut [u16], h: usize)
    requires { (at + 1 < length edit.now) × (h < most_steps) × (length work.old ≡ work_length) × Named (touched (get_or edit.now at 0)) (get_or edit.now (at + 1) 0) }
    ensures { work.new ≡ link_step edit.now at h work.old }
{
    let i = ends::cell_of(ends::name_code(edit[at]), edit[at + 1]);
    work[LINKS + h] = work[i];
    work[i] = (h + 1) as u16;
}
