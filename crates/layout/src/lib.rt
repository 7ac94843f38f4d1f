// Which layout the host's words have (02 item 7): that of document 01, or the maker's own of document 001, sections 7.5 and 7.6. Power-up chooses.

#![tactic(auto)]

#[derive(Clone, Copy)]
pub enum Layout {
    Ours,
    Makers,
}
