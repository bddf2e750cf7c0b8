//! Laws of `play`.

ghost use Rattle.std.specs.Prelude.{◌≡◌, List, ℕ, ◌∷◌, ◌++◌};
ghost use Rattle.observer_core.specs.Machine.{Machine};
ghost use Rattle.observer_core.specs.declared.event.Event.{Event};
ghost use Rattle.observer_core.specs.declared.event.Event.TheVariants.{LeaderBytes, ClientBytes};
ghost use Rattle.world.specs.Steps.{prepend_outputs};
ghost use Rattle.observer_core.specs.Play.{play};
ghost use Rattle.observer_core.specs.Logs.{MachinesFollowTheirLogs, RefusalsChangeNothing};
ghost use Rattle.observer_core.specs.Agreement.{ConnectionsAgree, SessionsAreServed, ConnectedSessionsLive, NothingWaitsInVain};
ghost use Rattle.observer_core.specs.Leaderless.{SilentWithoutLeader};
ghost use Rattle.observer_core.specs.Soundness.{MachinesAreSound};
ghost use Rattle.observer_core.specs.GivenIds.{IdsAreGivenOnce};
ghost use Rattle.observer_core.specs.Apart.{ClientsAreApart, AnswersReachOneClient};
ghost use Rattle.observer_core.specs.Shown.{RepliesShowTrees};
ghost use Rattle.observer_core.specs.WholeImages.{PartsAreWholeImages};
ghost use Rattle.observer_core.specs.Rows.{WorkedRows};

/// Playing two lists of events one after the other is playing their concatenation.
pub fn plays_on()
    ensures { (m : Machine) (a b : List Event)
        → play m (a ++ b) ≡ prepend_outputs (play m a).outputs (play (play m a).after b) }
{}

/// A piece of the leader's stream, or of a client's, may be cut in two anywhere.
pub fn cut_anywhere()
    ensures leader { (m : Machine) (a b : List ℕ) (events : List Event)
        → play m (LeaderBytes (a ++ b) ∷ events)
        ≡ play m (LeaderBytes a ∷ LeaderBytes b ∷ events) }
    ensures client { (m : Machine) (n : ℕ) (a b : List ℕ) (events : List Event)
        → play m (ClientBytes n (a ++ b) ∷ events)
        ≡ play m (ClientBytes n a ∷ ClientBytes n b ∷ events) }
{}

/// The tree is the base with the log applied, and the log's zxids ascend up to the last zxid: at the start, and after
/// every list of events, faults included.
pub fn logs_are_followed()
    ensures { MachinesFollowTheirLogs }
{
    replica::law::logs();
}

/// Images are loaded part by part, and no image is held besides the tree that it makes. For every list of events the
/// outputs and the state left are those of taking whole images.
pub fn parts_are_whole_images()
    ensures { PartsAreWholeImages }
{
    quorum_packet::grouped_items();
    replica::law::images();
    replica::law::dialects();
}

/// A packet or part that is refused changes nothing. Where bytes of the leader contain one, the outputs and the state
/// left are those of the items before it, followed by the loss of the leader for that fault. The same holds of bytes
/// that are unreadable; and a stream that ends inside a packet or an image loses the leader. The loss leaves the tree,
/// the base, the log and the epochs.
pub fn refusals_change_nothing()
    ensures { RefusalsChangeNothing }
{}

/// Every connection that has a session, a watch or a request that waits is open, no two connections share a session,
/// and a connection whose connect waits has none: at the start, and after every list of events if it was so before.
pub fn connections_agree()
    ensures { ConnectionsAgree }
{
    sessions::sessions_and_connections_agree();
    watch_manager::law::firing();
    forwarding::requests_and_syncs_agree();
}

/// Where clients aren't served no connection has a session, and none has a request that waits: at the start, and after
/// every list of events if it was so before and the connections agreed.
pub fn sessions_are_served()
    ensures { SessionsAreServed }
{
    replica::law::serving();
    sessions::sessions_and_connections_agree();
    watch_manager::law::firing();
    forwarding::requests_and_syncs_agree();
}

/// Unless sessions move between servers, the session of each connection lives, that is, the tree has it: at the start,
/// and after every list of events if it was so before, the connections agreed, and none had a session or a request that
/// waits where clients weren't served. So a connection closes when its session ends.
pub fn connected_sessions_live()
    ensures { ConnectedSessionsLive }
{
    replica::law::serving();
    replica::law::dialects();
    sessions::sessions_and_connections_agree();
    watch_manager::law::firing();
    forwarding::requests_and_syncs_agree();
}

/// No request waits for one that was answered: what waits of each connection is nothing, or begins with a connect, a
/// write or a sync that the leader hasn't answered yet. So it is at the start, and after every list of events if it was
/// so before and the connections agreed.
pub fn nothing_waits_in_vain()
    ensures { NothingWaitsInVain }
{
    sessions::sessions_and_connections_agree();
    watch_manager::law::firing();
    forwarding::requests_and_syncs_agree();
    forwarding::nothing_waits_in_vain();
}

/// Without a leader nothing goes out for one. A machine without a leader rests: it serves nobody, no connection has a
/// session, and no request waits. So it is at the start, and after every list of events, whichever of them ended the
/// leader. While it rests, no event but a leader's coming makes an output for a leader. A leader that comes is sent the
/// introduction, and nothing else.
///
/// So once a leader is gone and what was made for it before is dropped, the first that goes to the next leader is the
/// introduction.
pub fn silent_without_leader()
    ensures { SilentWithoutLeader }
{
    sessions::sessions_and_connections_agree();
    watch_manager::law::firing();
    forwarding::requests_and_syncs_agree();
}

/// A machine is sound at the start, and after every list of events, faults and ends of leaders included: clients,
/// watches and waiting requests agree, whoever isn't served has no session, the session of each connection lives,
/// nothing waits in vain, the tree follows its log, and without a leader the machine rests. The laws above say more of
/// each of these; this one needs none of the others as a premise.
pub fn machines_are_sound()
    ensures { MachinesAreSound }
{
    connections_agree();
    sessions_are_served();
    connected_sessions_live();
    nothing_waits_in_vain();
    logs_are_followed();
    silent_without_leader();
}

/// The counter of session ids never falls, and the server id stays, so an id that was given out stays given out. The id
/// that a connect asks for as new is new: it was never given out before, and is from then on. So no two connects are
/// given the same id, whatever happens between them, the end of a leader included. Unless sessions move between servers,
/// no connect asks for another session than a new one.
pub fn ids_are_given_once()
    ensures { IdsAreGivenOnce }
{
    sessions::sessions_and_connections_agree();
    sessions::ended_sessions_are_refused();
    watch_manager::law::firing();
    forwarding::requests_and_syncs_agree();
}

/// Each reply to a read shows the tree of the replica at that moment, and names its last zxid. Each reply to a write, or
/// to a closeSession, is for the last transaction of the log, which it names, and shows the tree with it. Any other frame
/// shows no tree and, if it is a reply, names the last zxid, 0 or -1. What is sent while bytes of the leader are taken is
/// made after the last item so far, and then too the tree is the base with the log applied, if it was before.
///
/// While clients are served, the tree is changed only by transactions, one after the other, with rising zxids. So no
/// zxid names two trees.
pub fn replies_show_trees()
    ensures { RepliesShowTrees }
{
    replica::law::logs();
    replica::law::serving();
    learner_sync::law::serving();
}

/// An event of a client (it connects, sends or leaves) leaves the tree and the log. It sends no frame to another
/// client, and to the leader only requests of its own session: the one that the client had before; or, if it had none, a
/// new one, whose id was given out for it, or one that the first frame of these bytes claims, with the session's
/// password. No other session is touched. Every other connection that it doesn't close keeps its waiting bytes, its
/// session, its ids, its watches and its waiting requests. It closes another connection only if that had, or waited for,
/// the session that the client claims. What a client that connects or leaves does concerns no session.
pub fn clients_are_apart()
    ensures { ClientsAreApart }
{
    sessions::others_stay();
    sessions::ended_sessions_are_refused();
    watch_manager::law::firing();
    forwarding::other_connections_stay();
}

/// A transaction of the leader answers at most one client: the one that has its session and waits for it, the one that
/// has or claims the session that it ends, or the one that waits for the session that it creates. Then that client's
/// requests that were held go to the leader, and an older connection of the session is closed. The leader's answer about
/// a session answers at most the client that claims it, in the same way, and a SYNC the one whose sync it settles.
/// Nothing else is sent, no other connection is closed, and every other connection keeps what it has.
pub fn answers_reach_one_client()
    ensures { AnswersReachOneClient }
{
    sessions::others_stay();
    sessions::sessions_and_connections_agree();
    watch_manager::law::firing();
    forwarding::other_connections_stay();
}

/// The definitions, evaluated on rows of bytes that were worked out by hand.
pub fn worked_rows()
    ensures { WorkedRows }
{
    txn_codec::transactions();
    watch_manager::law::firing();
    watch_manager::law::worked_rows();
}
