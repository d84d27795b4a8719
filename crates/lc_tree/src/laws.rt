// What the definitions say of the axis along which lights are halved, by themselves. The function does nothing: it
// states laws by its contract.
ghost use Rattle.std.specs.Prelude.{◌≡◌, ◌<◌, List, length};
ghost use Rattle.lc_num.specs.declared.vectors.Vec3.{Vec3};
ghost use Rattle.lc_tree.specs.Extents.{longest, longest_axis, AreExtents};
ghost use Rattle.lc_tree.specs.declared.numbered.Numbered.{Numbered};

use lc_terms::Kind;

/// The lights of a list, of which there is one at least, have one extent on each axis, and the axis along which they
/// are halved is that of the longest extent, ties going to x, then y.
pub fn longest_extents<K: Kind>()
    ensures some { (es : List (Numbered K.Light)) → 0 < length es → (v : Vec3) × AreExtents es v }
    ensures one { (es : List (Numbered K.Light)) (v w : Vec3) → AreExtents es v → AreExtents es w → v ≡ w }
    ensures longest { (es : List (Numbered K.Light)) (v : Vec3) → AreExtents es v → longest_axis es ≡ longest v }
{}
