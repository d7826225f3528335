//! Laws of networks and of the programs that they are compiled to.
ghost use Rattle.net_column.specs.Form.{TextsHaveOneNet};
ghost use Rattle.net_column.specs.Laws.{FuelBoundsSteps, StepsWithinLimits, ReadNetworksAreSmall};

use net_syntax::read_networks_are_derived;

/// A process begins fewer steps than it has fuel, and the processes of a network take no more steps
/// than they may.
pub fn steps_are_bounded()
    ensures fuel { FuelBoundsSteps }
    ensures limits { StepsWithinLimits }
{}

/// A text is that of one network at most.
pub fn nets_are_one()
    ensures { TextsHaveOneNet }
{}

/// The network of a text is small enough to be checked: it has no more parts than its text may have lines.
pub fn read_networks_are_small()
    ensures { ReadNetworksAreSmall }
{
    // The call tells the proof that the network is that of the text's lines.
    read_networks_are_derived();
}
