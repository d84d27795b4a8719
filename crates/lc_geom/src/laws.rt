// Laws of crossings and of nearest hits. The functions do nothing: each states laws by its contract.
ghost use Rattle.std.specs.Prelude.{◌≡◌, ℕ, ◌<◌, List, slice_get, true, pos, ◌+ℤ◌, ◌-ℤ◌, ◌*ℤ◌, unsigned_abs};
ghost use Rattle.lc_num.specs.declared.vectors.Vec3.{Vec3};
ghost use Rattle.lc_geom.specs.Crossing.{crosses, side, volume};
ghost use Rattle.lc_geom.specs.Hits.{HitsNone, IsHitOf, IsLeastOf, blocked, nearest};
ghost use Rattle.lc_geom.specs.Points.{DividesInside, IsBetween};
ghost use Rattle.lc_geom.specs.declared.hit.Hit.{Hit};
ghost use Rattle.lc_geom.specs.declared.triangle.Tri.{Tri};

/// The point where a segment crosses a triangle is the mean of the triangle's corners by the three volumes, and divides
/// the segment as its ends' distances from the triangle's plane. So it lies in each box that holds the corners.
pub fn crossing_point()
    ensures x { (p q : Vec3) (t : Tri)
        → volume p q t.b t.c *ℤ (t.a.x -ℤ p.x) +ℤ volume p q t.c t.a *ℤ (t.b.x -ℤ p.x) +ℤ volume p q t.a t.b *ℤ
        (t.c.x -ℤ p.x) ≡ (pos 0 -ℤ side t p) *ℤ (q.x -ℤ p.x) }
    ensures y { (p q : Vec3) (t : Tri)
        → volume p q t.b t.c *ℤ (t.a.y -ℤ p.y) +ℤ volume p q t.c t.a *ℤ (t.b.y -ℤ p.y) +ℤ volume p q t.a t.b *ℤ
        (t.c.y -ℤ p.y) ≡ (pos 0 -ℤ side t p) *ℤ (q.y -ℤ p.y) }
    ensures z { (p q : Vec3) (t : Tri)
        → volume p q t.b t.c *ℤ (t.a.z -ℤ p.z) +ℤ volume p q t.c t.a *ℤ (t.b.z -ℤ p.z) +ℤ volume p q t.a t.b *ℤ
        (t.c.z -ℤ p.z) ≡ (pos 0 -ℤ side t p) *ℤ (q.z -ℤ p.z) }
    ensures sum { (p q : Vec3) (t : Tri)
        → volume p q t.b t.c +ℤ volume p q t.c t.a +ℤ volume p q t.a t.b ≡ side t q -ℤ side t p }
    ensures start_off { (p q : Vec3) (t : Tri) → crosses p q t ≡ true → 0 < unsigned_abs (side t p) }
    ensures end_off { (p q : Vec3) (t : Tri) → crosses p q t ≡ true → 0 < unsigned_abs (side t q) }
    ensures inside { (p q low high : Vec3) (t : Tri) → crosses p q t ≡ true → IsBetween low high t.a
        → IsBetween low high t.b → IsBetween low high t.c
        → DividesInside (unsigned_abs (side t p)) (unsigned_abs (side t q)) low high p q }
{}

/// The nearest hit is the hit of the list before which none comes, and there is none exactly where the ray hits
/// nothing.
pub fn nearest_hit()
    ensures none { (e d : Vec3) (ts : List Tri) → nearest e d ts ≡ None → HitsNone e d ts }
    ensures only_none { (e d : Vec3) (ts : List Tri) → HitsNone e d ts → nearest e d ts ≡ None }
    ensures hit { (e d : Vec3) (ts : List Tri) (hit : Hit) → nearest e d ts ≡ Some hit → IsHitOf e d ts hit }
    ensures least { (e d : Vec3) (ts : List Tri) (hit : Hit) → nearest e d ts ≡ Some hit → IsLeastOf e d ts hit }
    ensures only { (e d : Vec3) (ts : List Tri) (hit : Hit) → IsHitOf e d ts hit → IsLeastOf e d ts hit
        → nearest e d ts ≡ Some hit }
{}

/// A segment is blocked exactly where it crosses some triangle of the list, whatever their order.
pub fn blocked_by()
    ensures some { (p q : Vec3) (ts : List Tri) → blocked p q ts ≡ true
        → (number : ℕ) × (t : Tri) × (slice_get ts number ≡ Some t) × (crosses p q t ≡ true) }
    ensures each { (p q : Vec3) (ts : List Tri) (number : ℕ) (t : Tri) → slice_get ts number ≡ Some t
        → crosses p q t ≡ true → blocked p q ts ≡ true }
{}
