// Points and vectors. Upstream: src/sph_geom/coo3d.rs.
#![tactic(auto)]

ghost use Rattle.std.specs.Prelude.{◌≡◌};
ghost use Rattle.coo3d.specs.declared.Vect3.{Vect3};
ghost use Rattle.coo3d.specs.Vectors.{origin, zero_vect, vect_of_point, vect_of_unit, dot_of, cross_of, opposite_of, squared_norm, norm_of, is_unit, scaled_by, normalized_of, squared_dist_of, unit_of, unit_opposite_of, is_finite_unit};

// A point of the sphere, by Cartesian and by geographic coordinates, which need not agree.
#[derive(Clone, Copy, PartialEq)]
pub struct Coo3D {
    pub x: f64,
    pub y: f64,
    pub z: f64,
    pub lon: f64,
    pub lat: f64,
}

// A plain vector.
#[derive(Clone, Copy, PartialEq)]
pub struct Vect3 {
    pub x: f64,
    pub y: f64,
    pub z: f64,
}

// A vector that was scaled to the norm 1, up to rounding.
#[derive(Clone, Copy, PartialEq)]
pub struct UnitVect3 {
    pub x: f64,
    pub y: f64,
    pub z: f64,
}

#[derive(Clone, Copy, PartialEq)]
pub struct LonLat {
    pub lon: f64,
    pub lat: f64,
}

// What has the coordinates of a vector: a point and a unit vector do. Each has its own `x`, `y` and `z`, since what a trait gives by default reads no field.
pub trait Vec3: Copy {
    // The vector with those coordinates.
    ghost vect: { Self → Vect3 };

    fn x(self) -> f64
        ensures { result ≡ (vect self).x };

    fn y(self) -> f64
        ensures { result ≡ (vect self).y };

    fn z(self) -> f64
        ensures { result ≡ (vect self).z };
}

impl Vec3 for Coo3D {
    ghost vect = { vect_of_point };

    fn x(self) -> f64 {
        self.x
    }

    fn y(self) -> f64 {
        self.y
    }

    fn z(self) -> f64 {
        self.z
    }
}

impl Vec3 for Vect3 {
    ghost vect = { λ v. v };

    fn x(self) -> f64 {
        self.x
    }

    fn y(self) -> f64 {
        self.y
    }

    fn z(self) -> f64 {
        self.z
    }
}

impl Vec3 for UnitVect3 {
    ghost vect = { vect_of_unit };

    fn x(self) -> f64 {
        self.x
    }

    fn y(self) -> f64 {
        self.y
    }

    fn z(self) -> f64 {
        self.z
    }
}

pub fn dot_product<A: Vec3, B: Vec3>(v1: A, v2: B) -> f64
    ensures { result ≡ dot_of (A.vect v1) (B.vect v2) }
{
    v1.x() * v2.x() + v1.y() * v2.y() + v1.z() * v2.z()
}

pub fn cross_product<A: Vec3, B: Vec3>(v1: A, v2: B) -> Vect3
    ensures { result ≡ cross_of (A.vect v1) (B.vect v2) }
{
    Vect3 {
        x: v1.y() * v2.z() - v1.z() * v2.y(),
        y: v1.z() * v2.x() - v1.x() * v2.z(),
        z: v1.x() * v2.y() - v1.y() * v2.x(),
    }
}

pub fn squared_norm_of(x: f64, y: f64, z: f64) -> f64
    ensures { result ≡ squared_norm x y z }
{
    x * x + y * y + z * z
}

// The larger of the difference and its opposite is its magnitude, up to the sign of a zero, and takes no branch.
pub fn is_unit_from_norm(norm: f64) -> bool
    ensures { result ≡ is_unit norm }
{
    let step = norm - 1.0;
    float::max(step, -step) <= f64::EPSILON
}

// A conversion for each of the two types: one for whatever has `Vec3` would take a vector too, which std's own does already.
impl From<Coo3D> for Vect3 {
    ghost from_gives = { λ p v. v ≡ vect_of_point p };

    fn from(p: Coo3D) -> Vect3 {
        Vect3 {
            x: p.x,
            y: p.y,
            z: p.z,
        }
    }
}

impl From<UnitVect3> for Vect3 {
    ghost from_gives = { λ u v. v ≡ vect_of_unit u };

    fn from(u: UnitVect3) -> Vect3 {
        Vect3 {
            x: u.x,
            y: u.y,
            z: u.z,
        }
    }
}

impl Coo3D {
    // A point to fill an array with before its entries are known.
    pub fn origin() -> Coo3D
        ensures { result ≡ origin }
    {
        Coo3D {
            x: 0.0,
            y: 0.0,
            z: 0.0,
            lon: 0.0,
            lat: 0.0,
        }
    }

    pub fn to_vect3(self) -> Vect3
        ensures { result ≡ vect_of_point self }
    {
        self.into()
    }
}

// Upstream has most of these in the trait. They are asked of plain vectors alone, and a trait's methods each caller would have to bring into scope.
impl Vect3 {
    pub fn zero() -> Vect3
        ensures { result ≡ zero_vect }
    {
        Vect3 {
            x: 0.0,
            y: 0.0,
            z: 0.0,
        }
    }

    pub fn squared_norm(self) -> f64
        ensures { result ≡ squared_norm self.x self.y self.z }
    {
        squared_norm_of(self.x, self.y, self.z)
    }

    pub fn norm(self) -> f64
        ensures { result ≡ norm_of self.x self.y self.z }
    {
        root::sqrt(squared_norm_of(self.x, self.y, self.z))
    }

    pub fn opposite(self) -> Vect3
        ensures { result ≡ opposite_of self }
    {
        Vect3 {
            x: -self.x,
            y: -self.y,
            z: -self.z,
        }
    }

    pub fn squared_euclidean_dist<V: Vec3>(self, other: V) -> f64
        ensures { result ≡ squared_dist_of self (V.vect other) }
    {
        squared_norm_of(self.x - other.x(), self.y - other.y(), self.z - other.z())
    }

    pub fn normalized(self) -> UnitVect3
        ensures { result ≡ normalized_of self }
    {
        UnitVect3::scaled_by(self.norm(), self.x, self.y, self.z)
    }
}

impl UnitVect3 {
    // Scales the vector to the norm 1, unless its squared norm is 1 up to EPSILON.
    pub fn new(x: f64, y: f64, z: f64) -> UnitVect3
        ensures { result ≡ unit_of x y z }
    {
        let norm2 = squared_norm_of(x, y, z);
        if is_unit_from_norm(norm2) {
            UnitVect3 { x, y, z }
        } else {
            UnitVect3::scaled_by(root::sqrt(norm2), x, y, z)
        }
    }

    fn scaled_by(norm: f64, x: f64, y: f64, z: f64) -> UnitVect3
        ensures { result ≡ scaled_by norm x y z }
    {
        UnitVect3 {
            x: x / norm,
            y: y / norm,
            z: z / norm,
        }
    }

    // By `new`, so with its scaling.
    pub fn opposite(self) -> UnitVect3
        ensures { result ≡ unit_opposite_of self }
    {
        UnitVect3::new(-self.x, -self.y, -self.z)
    }

    pub fn is_finite(self) -> bool
        ensures { result ≡ is_finite_unit self }
    {
        float::is_finite(self.x) & float::is_finite(self.y) & float::is_finite(self.z)
    }

    pub fn to_vect3(self) -> Vect3
        ensures { result ≡ vect_of_unit self }
    {
        self.into()
    }
}
