// Points and placements, which stand in for glam's DVec2 and DAffine2. Each operation is rounded.
ghost use Rattle.std.specs.Prelude.{◌≡◌};
ghost use Rattle.geometry.specs.Placement.{vec, transform_vector2, transform_point2, ◌·◌};

use std::ops::Mul;

#[derive(Clone, Copy)]
pub struct DVec2 {
    pub x: f64,
    pub y: f64,
}

impl DVec2 {
    pub fn new(x: f64, y: f64) -> Self
        ensures { result ≡ vec x y }
    {
        Self { x, y }
    }
}

// The x axis (xx, xy), the y axis (yx, yy) and the translation (tx, ty).
#[derive(Clone, Copy)]
pub struct Placement {
    pub xx: f64,
    pub xy: f64,
    pub yx: f64,
    pub yy: f64,
    pub tx: f64,
    pub ty: f64,
}

impl Placement {
    pub const IDENTITY: Placement = Placement {
        xx: 1.0,
        xy: 0.0,
        yx: 0.0,
        yy: 1.0,
        tx: 0.0,
        ty: 0.0,
    };

    // The axes alone.
    #[tactic(auto, unfolding(crate::specs::Placement::transform_vector2))]
    fn transform_vector2(self, v: DVec2) -> DVec2
        ensures { result ≡ transform_vector2 self v }
    {
        DVec2::new(self.xx * v.x + self.yx * v.y, self.xy * v.x + self.yy * v.y)
    }

    #[tactic(auto, unfolding(crate::specs::Placement::transform_point2))]
    pub fn transform_point2(self, p: DVec2) -> DVec2
        ensures { result ≡ transform_point2 self p }
    {
        let v = self.transform_vector2(p);
        DVec2::new(v.x + self.tx, v.y + self.ty)
    }
}

// The product: first `child`, then this placement.
impl Mul for Placement {
    type Output = Placement;

    ghost mul_gives = { λ parent child product. product ≡ parent · child };

    fn mul(self, child: Placement) -> Placement {
        let x_axis = self.transform_vector2(DVec2::new(child.xx, child.xy));
        let y_axis = self.transform_vector2(DVec2::new(child.yx, child.yy));
        let translation = self.transform_point2(DVec2::new(child.tx, child.ty));
        Placement {
            xx: x_axis.x,
            xy: x_axis.y,
            yx: y_axis.x,
            yy: y_axis.y,
            tx: translation.x,
            ty: translation.y,
        }
    }
}
