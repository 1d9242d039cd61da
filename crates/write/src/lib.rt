// What an edit enters into a layer's slice is the edited layer: laws alone.
#![tactic(auto)]
