//! Laws of what the plain machine answers, proved over every call, over `qplain_laws`.
#![tactic(auto)]

pub use answers::{
    first_limit_is_told, made_numbers_are_free, projects_without_limits_change_nothing,
    reads_are_as_long_as_asked,
};

mod answers;
