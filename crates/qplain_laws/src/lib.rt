//! The laws of the plain machine, proved over every call, and worked examples of it, over `qplain`.
#![tactic(auto)]

pub use beginnings::{beginnings_stay, names_stay_names, settings_stay_in_range};
pub use changes::{
    answers_are_true, asking_changes_nothing, bytes_are_kept, done_is_done, files_stay_right_sized,
    graces_run_on, names_cost_nothing, one_inode_is_touched, other_names_stay, settings_stay,
    superuser_meets_no_quota,
};
pub use examples::{
    more_worked_examples, worked_examples, worked_examples_at_edges, worked_examples_of_names,
    worked_examples_of_projects,
};
pub use journals::{changes_are_small, journals_stay_lawful, tallies_add_up};
pub use laws::{
    ends_stay, giving_back_is_granted, holders_keep_the_rules, inodes_stay_reached, limits_hold,
    links_come_first, numbers_go_on, overwrites_are_granted, projects_are_inherited, projects_stay,
    refusals_change_nothing, refusals_come_in_order, rights_hold, setups_stay, stores_stay_lawful,
    undeclared_kinds_do_nothing, uses_add_up,
};

mod beginnings;
mod changes;
mod examples;
mod journals;
mod laws;
