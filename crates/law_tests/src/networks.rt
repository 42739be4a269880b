//! That what the other modules speak of are networks: each is what is read of its two files.
ghost use Rattle.clr_net.specs.Limits.{IsNetwork};
ghost use Rattle.clr_net.specs.Samples.{chain};
ghost use Rattle.law_tests.specs.Nets.{cycle, dry_ring};

// The chain is what is read of its files, and so a network.
pub fn chain_is_network()
    ensures { IsNetwork chain }
{
    net_csv::laws::reading_gives_a_network();
}

// So is a ring without cash.
pub fn dry_ring_is_network()
    ensures { IsNetwork dry_ring }
{
    net_csv::laws::reading_gives_a_network();
}

// And so is a cycle of three debts.
pub fn cycle_is_network()
    ensures { IsNetwork cycle }
{
    net_csv::laws::reading_gives_a_network();
}
