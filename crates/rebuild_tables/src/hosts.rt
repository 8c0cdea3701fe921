//! Which node a host is on.
ghost use Rattle.std.specs.Prelude.{◌≡◌, ◌<◌};
ghost use Rattle.rebuild_tables.specs.Hosts as words;
ghost use Rattle.rebuild_tables.specs.Hosts.{IsHosts, nodes_from};

use host_tables::{HOST_COUNT, Hosts};

/// The node of a host.
pub fn node_at(hosts: &Hosts, host: u32) -> u32
    requires hosts { IsHosts hosts.now }
    requires host { host < 16 }
    ensures node { result ≡ words.node_at hosts.now host }
    ensures there { result < hosts.now.nodes }
{
    (host + hosts.shift) % hosts.nodes
}

/// The node of each host.
pub fn nodes_of(hosts: &Hosts) -> [u32; HOST_COUNT]
    requires hosts { IsHosts hosts.now }
    ensures { result ≡ nodes_from hosts.now }
{
    [
        node_at(hosts, 0),
        node_at(hosts, 1),
        node_at(hosts, 2),
        node_at(hosts, 3),
        node_at(hosts, 4),
        node_at(hosts, 5),
        node_at(hosts, 6),
        node_at(hosts, 7),
        node_at(hosts, 8),
        node_at(hosts, 9),
        node_at(hosts, 10),
        node_at(hosts, 11),
        node_at(hosts, 12),
        node_at(hosts, 13),
        node_at(hosts, 14),
        node_at(hosts, 15),
    ]
}
