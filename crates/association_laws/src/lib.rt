// Laws of document 01's association: flat rows, the scale, the distances and the nearest lines.

#![tactic(auto)]
