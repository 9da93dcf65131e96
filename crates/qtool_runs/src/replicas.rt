//! What hosts of a replicated store have in common, each law the contract of a function that does nothing when it runs.
ghost use Rattle.qtool_runs.specs.Replicas.{HostsAgree, HostsBeginAlike};

/// Services of one client on stores of one setup that were fed the same lines, none of which failed, or the same of
/// which failed, leave the same journal, tallies, files and quotas. Where one has stopped at a line that failed, its
/// journal is a beginning of that of one which was fed the same lines and more, and made them.
pub fn hosts_agree()
    ensures alike { HostsAgree }
    ensures begin { HostsBeginAlike }
{}
