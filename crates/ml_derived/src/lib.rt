// The rules of matching logic within scopes, and derived rules.
//
// The rules have the names of the kernel's calls, each with one more clause: the result stays within
// every scope that contains the inputs (specs/Scopes.antt). So what a derived rule uses and cites
// follows from its calls, and no contract has to state a derivation step by step. A derived rule is
// a fixed combination of rules. It has the conclusion that its name says, and stays within its
// inputs: it assumes, uses and cites nothing else.
#![tactic(auto)]

mod applying;
mod citing;
mod denying;
mod equalities;
mod hypothetical;
mod implications;
mod instances;
mod reaching;
mod refuting;
mod rules;

pub use applying::no_application;
pub use citing::{assume, use_lemma};
pub use denying::{denied_by, denied_by_two, not_both, unequal_to};
pub use equalities::{carry, cong_app, cong_arg, cong_fun, flip, join};
pub use hypothetical::{
    back, before, bot_to_not, both_under, chain_under, from_not, itself, not_to_bot, pack, swap,
    swap_under, then, to_not, turn, under_two, unpack, wider,
};
pub use implications::{both, chain, free_of_condition, free_of_top, lift, under};
pub use instances::{Binder, instance, instance_open, instance_under};
pub use reaching::{reach_here, reach_step};
pub use refuting::{Element, disjoint, no_argument, no_function, unequal};
pub use rules::{
    and_1, and_2, and_3, apart, app_l, app_r, bot_l, bot_r, eq_el, eq_in, eq_refl, ev_1, ev_2,
    ev_kt, ex_el, fun_ex, inst, mem_in, mem_no, mp, next_in, not_1, not_2, or_1, or_2, or_3, p_1,
    p_2, p_3, top,
};
