//! The laws, each called once. A law that is called in a test would bring its statement, with its rows of bytes, into
//! the test's proof.
use observer_core::{
    answers_reach_one_client, clients_are_apart, connected_sessions_live, connections_agree,
    cut_anywhere, ids_are_given_once, logs_are_followed, machines_are_sound, nothing_waits_in_vain,
    parts_are_whole_images, plays_on, refusals_change_nothing, replies_show_trees,
    sessions_are_served, silent_without_leader, worked_rows,
};

pub fn call_laws_of_leaders() {
    logs_are_followed();
    parts_are_whole_images();
    refusals_change_nothing();
    silent_without_leader();
}

pub fn call_laws_of_clients() {
    connections_agree();
    sessions_are_served();
    connected_sessions_live();
    nothing_waits_in_vain();
    ids_are_given_once();
    clients_are_apart();
    answers_reach_one_client();
}

pub fn call_laws_of_events() {
    plays_on();
    cut_anywhere();
    machines_are_sound();
    replies_show_trees();
}

pub fn call_worked_rows() {
    worked_rows();
}
