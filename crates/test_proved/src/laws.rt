//! Theorems are functions with an empty body. This test calls each of these from another crate.

use coap_conn::laws;
use coap_path::laws as application_laws;
use coap_serve::laws as server_laws;

#[test]
fn calls_laws(_rt: HostRuntime) {
    laws::last_announcement_counts();
    laws::queued_messages_fit_limit();
    laws::own_announcement_comes_first();
    laws::peer_announces_before_requests();
    server_laws::segmentation_is_irrelevant();
    server_laws::only_stores_allocate();
    server_laws::a_pong_with_custody_follows_all_answers();
    server_laws::connections_interact_only_through_store();
    application_laws::prefix_is_start_of_path();
    application_laws::longest_prefix_wins();
    application_laws::built_in_resources_stay();
    application_laws::other_paths_stay();
}
