//! Wrong histories with falls, each refused.

ghost use Rattle.qc_decl.specs.One.{three};
ghost use Rattle.tests_falls.specs.Refused.{IsNoPost, IsNoRise};
ghost use Rattle.tests_falls.specs.WrongClients as wrong_clients;
ghost use Rattle.tests_falls.specs.WrongSites as wrong_sites;

/// No lawful turn posts these steps.
pub fn wrong_posts_through_falls_are_refused()
    ensures old_life { IsNoPost three 1 wrong_sites.old_life wrong_sites.old_life_then }
    ensures old_grant { IsNoPost three 1 wrong_sites.old_grant wrong_sites.old_grant_then }
    ensures old_grant_unwritten { IsNoPost three 1 wrong_sites.old_grant_unwritten
        wrong_sites.old_grant_unwritten_then }
    ensures nothing_asked { IsNoPost three 0 wrong_sites.nothing_asked wrong_sites.nothing_asked_then }
    ensures no_life { IsNoPost three 0 wrong_sites.no_life wrong_sites.no_life_then }
    ensures asked_unwritten { IsNoPost three 0 wrong_sites.asked_unwritten wrong_sites.asked_unwritten_then }
    ensures promise_dropped { IsNoPost three 0 wrong_sites.promise_dropped wrong_sites.promise_dropped_then }
    ensures fault_alone { IsNoPost three 1 wrong_sites.fault_alone wrong_sites.fault_alone_then }
    ensures voted_unwritten { IsNoPost three 1 wrong_sites.voted_unwritten wrong_sites.voted_unwritten_then }
    ensures unknown_alone { IsNoPost three 3 wrong_clients.unknown_alone wrong_clients.unknown_alone_then }
    ensures committed_unwritten { IsNoPost three 3 wrong_clients.committed_unwritten
        wrong_clients.committed_unwritten_then }
    ensures old_name { IsNoPost three 3 wrong_clients.old_name wrong_clients.old_name_then }
    ensures decided_without_record { IsNoPost three 3 wrong_clients.decided_without_record
        wrong_clients.decided_without_record_then }
    ensures decided_against_record { IsNoPost three 3 wrong_clients.decided_against_record
        wrong_clients.decided_against_record_then }
    ensures begun_while_down { IsNoPost three 3 wrong_clients.begun_while_down wrong_clients.begun_while_down_then }
    ensures stamp_again { IsNoPost three 3 wrong_clients.stamp_again wrong_clients.stamp_again_then }
{}

/// No journal gives these records back.
pub fn wrong_rises_are_refused()
    ensures late_record { IsNoRise three 3 wrong_clients.late_record wrong_clients.late_record_then }
    ensures record_lost { IsNoRise three 3 wrong_clients.record_lost wrong_clients.record_lost_then }
    ensures record_more { IsNoRise three 3 wrong_clients.record_more wrong_clients.record_more_then }
{}
