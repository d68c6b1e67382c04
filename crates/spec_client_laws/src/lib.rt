//! What the client promises in every history, in the words of the protocol.
#![tactic(auto)]

ghost use Rattle.spec_client_laws.specs.Fates.{AnswersAreOfRequests, TimeoutsAreOfRequests, WaitingTimeOutInTime};
ghost use Rattle.spec_client_laws.specs.Fates.{RequestsEndOnce};
ghost use Rattle.spec_client_laws.specs.KeptRows.{KeepsCounted};
ghost use Rattle.spec_client_laws.specs.Runs.{OneWaitsOverLinks, PrintsGivenSamples, SendsOneByOne};

/// Each request is answered at most once, and by a response of its invoke id, its command and its addresses; and where it
/// is not answered, it times out exactly at the first tick that comes five seconds or more after it was sent.
pub fn requests_end_once_and_in_time()
    ensures once { RequestsEndOnce }
    ensures answers { AnswersAreOfRequests }
    ensures timeouts { TimeoutsAreOfRequests }
    ensures in_time { WaitingTimeOutInTime }
{}

/// A request of a call is sent only where no other request of it waits for its answer; so over a link one waits at most.
pub fn requests_are_sent_one_by_one()
    ensures turns { SendsOneByOne }
    ensures links { OneWaitsOverLinks }
{}

/// A sample at which a call prints, sends or keeps anything is of a handle that an answer gave before.
pub fn samples_come_behind_their_handle()
    ensures { PrintsGivenSamples }
{}

/// The rows that a recording gives to be kept have the numbers from its first one on, each once, and are at most as many as it
/// was asked for; any other call gives none.
pub fn kept_rows_are_counted()
    ensures { KeepsCounted }
{}
