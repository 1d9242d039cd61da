// The operator's question: which group gets my change. Laws alone; they speak of what the calls leave in the slices.
#![tactic(auto)]
