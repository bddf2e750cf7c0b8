//! Laws of the formats.

ghost use Rattle.jute.specs.Laws.{IsSound};
ghost use Rattle.client_records.specs.Requests.{connect_request, exists_request, get_data_request, get_children_request, get_children2_request, get_acl_request, set_watches, set_watches2, path_and_kind, add_watch, auth_packet, sasl_request};
ghost use Rattle.client_records.specs.Multi.{multi_header};
ghost use Rattle.client_records.specs.Responses.{connect_response, exists_response, get_data_response, get_children_response, get_children2_response, get_acl_response, path_response, create2_response, error_response, all_children_number_response, client_info, who_am_i_response, sasl_response, watcher_event};

/// Every format here is sound: what is read was spelled so, a spelling is read whatever follows it, what is written is
/// the shortest spelling, and a refusal names the first field that isn't spelled.
pub fn records()
    ensures connect_request { IsSound connect_request }
    ensures exists_request { IsSound exists_request }
    ensures get_data_request { IsSound get_data_request }
    ensures get_children_request { IsSound get_children_request }
    ensures get_children2_request { IsSound get_children2_request }
    ensures get_acl_request { IsSound get_acl_request }
    ensures set_watches { IsSound set_watches }
    ensures set_watches2 { IsSound set_watches2 }
    ensures path_and_kind { IsSound path_and_kind }
    ensures add_watch { IsSound add_watch }
    ensures auth_packet { IsSound auth_packet }
    ensures multi_header { IsSound multi_header }
    ensures sasl_request { IsSound sasl_request }
    ensures connect_response { IsSound connect_response }
    ensures exists_response { IsSound exists_response }
    ensures get_data_response { IsSound get_data_response }
    ensures get_children_response { IsSound get_children_response }
    ensures get_children2_response { IsSound get_children2_response }
    ensures get_acl_response { IsSound get_acl_response }
    ensures path_response { IsSound path_response }
    ensures create2_response { IsSound create2_response }
    ensures error_response { IsSound error_response }
    ensures all_children_number_response { IsSound all_children_number_response }
    ensures client_info { IsSound client_info }
    ensures who_am_i_response { IsSound who_am_i_response }
    ensures sasl_response { IsSound sasl_response }
    ensures watcher_event { IsSound watcher_event }
{}
