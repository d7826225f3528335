//! What holds of network texts, apart from any call.
ghost use Rattle.net_syntax.specs.Laws.{NetworksAreRead, ReadNetworksAreDerived, TextsAreAnswered, WrittenNetworksAreRead};

/// A text whose lines are a network by the grammar gives that network, and so it gives no other and
/// is not refused.
pub fn networks_are_read()
    ensures { NetworksAreRead }
{}

/// The lines of a text that gives a network are that network by the grammar.
pub fn read_networks_are_derived()
    ensures { ReadNetworksAreDerived }
{}

/// What a text gives is what the grammar says of its lines: the network that they are, or the refusal
/// of the first line with which no network goes on, or of what is missing at the end.
pub fn texts_are_answered()
    ensures { TextsAreAnswered }
{}

/// The canonical text of a network that some text gives is read as this network again, with other
/// line numbers.
pub fn written_networks_are_read()
    ensures { WrittenNetworksAreRead }
{}
