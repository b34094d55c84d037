// Zones between two meridians and two parallels. Upstream: src/sph_geom/zone.rs.
#![tactic(auto)]

ghost use Rattle.std.specs.Prelude.{◌≡◌};
ghost use Rattle.refusal.specs.Answer.{answer_of};
ghost use Rattle.zone.specs.Zone.{bounds_hold, raised, zone_of, dlon_of, crossed_vertically, crossed_horizontally, lon_range_compatible, zone_contains, zone_contains_exclusive, vertices_of};

use coo3d::LonLat;
use refusal::Cause;

// A value handed in counts as its fields are, whether `new` made it or not.
#[derive(Clone, Copy)]
pub struct Zone {
    pub lon_min: f64,
    pub lat_min: f64,
    pub lon_max: f64,
    pub lat_max: f64,
    // The zone runs over the meridian 0: lon_min > lon_max.
    pub cross_primary_meridian: bool,
}

// The assertions of upstream's `Zone::new`.
fn bounds_hold(lon_min: f64, lat_min: f64, lon_max: f64, lat_max: f64) -> bool
    ensures { result ≡ bounds_hold lon_min lat_min lon_max lat_max }
{
    float::within_half_open(0.0, lon_min, float::TWO_PI)
        & (0.0 < lon_max)
        & (lon_max <= float::TWO_PI)
        & float::within_half_open(-float::HALF_PI, lat_min, float::HALF_PI)
        & (-float::HALF_PI < lat_max)
        & (lat_max <= float::HALF_PI)
        & (lat_min < lat_max)
}

// A north edge on the pole is raised, so that the pole itself lies south of it.
fn raise(lat_max: f64) -> f64
    ensures { result ≡ raised lat_max }
{
    if lat_max == float::HALF_PI {
        float::HALF_PI + 1e-15
    } else {
        lat_max
    }
}

impl Zone {
    pub fn new(lon_min: f64, lat_min: f64, lon_max: f64, lat_max: f64) -> Result<Zone, Cause>
        ensures { answer_of result ≡ zone_of lon_min lat_min lon_max lat_max }
    {
        if bounds_hold(lon_min, lat_min, lon_max, lat_max) {
            Ok(Zone {
                lon_min,
                lat_min,
                lon_max,
                lat_max: raise(lat_max),
                cross_primary_meridian: lon_min > lon_max,
            })
        } else {
            Err(Cause::ZoneBounds)
        }
    }

    pub fn dlon(self) -> f64
        ensures { result ≡ dlon_of self }
    {
        if self.cross_primary_meridian {
            float::TWO_PI - self.lon_min + self.lon_max
        } else {
            self.lon_max - self.lon_min
        }
    }

    // Whether the meridian `lon` from `lat_down` to `lat_up` crosses the zone whole.
    pub fn crossed_vertically(self, lon: f64, lat_down: f64, lat_up: f64) -> bool
        ensures { result ≡ crossed_vertically self lon lat_down lat_up }
    {
        let is_in_lat_range = (lat_down < self.lat_min) & (self.lat_max <= lat_up);
        if self.cross_primary_meridian {
            is_in_lat_range & ((self.lon_min <= lon) | (lon < self.lon_max))
        } else {
            is_in_lat_range & ((self.lon_min <= lon) & (lon < self.lon_max))
        }
    }

    // Whether the parallel `lat` from `lon_left` to `lon_right`, over the meridian 0 where lon_right < lon_left, crosses the zone whole.
    pub fn crossed_horizontally(self, lon_left: f64, lon_right: f64, lat: f64) -> bool
        ensures { result ≡ crossed_horizontally self lon_left lon_right lat }
    {
        let crosses = lon_right < lon_left;
        let is_lat_compatible = float::within_half_open(self.lat_min, lat, self.lat_max);
        let is_left = lon_left < self.lon_min;
        let is_right = self.lon_max <= lon_right;
        if self.cross_primary_meridian {
            is_lat_compatible & (crosses & (is_left & is_right))
        } else if crosses {
            is_lat_compatible & (is_left | is_right)
        } else {
            is_lat_compatible & (is_left & is_right)
        }
    }

    // Whether the longitudes from `lon_w` to `lon_e` lie in the zone's.
    pub fn is_lon_range_compatible(self, lon_w: f64, lon_e: f64) -> bool
        ensures { result ≡ lon_range_compatible self lon_w lon_e }
    {
        (self.cross_primary_meridian == (lon_e < lon_w))
            & (self.lon_min <= lon_w)
            & (lon_e < self.lon_max)
    }

    // The zone without its east and north edges.
    pub fn contains(self, lon: f64, lat: f64) -> bool
        ensures { result ≡ zone_contains self lon lat }
    {
        let is_lat_compatible = float::within_half_open(self.lat_min, lat, self.lat_max);
        if self.cross_primary_meridian {
            is_lat_compatible & ((lon < self.lon_max) | (self.lon_min <= lon))
        } else {
            is_lat_compatible & ((self.lon_min <= lon) & (lon < self.lon_max))
        }
    }

    // The zone without any edge. As upstream, a function of its own: what it shares with `contains` is no comparison but their order.
    pub fn contains_exclusive(self, lon: f64, lat: f64) -> bool
        ensures { result ≡ zone_contains_exclusive self lon lat }
    {
        let is_lat_compatible = (self.lat_min < lat) & (lat < self.lat_max);
        if self.cross_primary_meridian {
            is_lat_compatible & ((lon < self.lon_max) | (self.lon_min < lon))
        } else {
            is_lat_compatible & ((self.lon_min < lon) & (lon < self.lon_max))
        }
    }

    // The corners SW, NW, NE, SE; the north ones as `new` raised them.
    pub fn vertices(self) -> [LonLat; 4]
        ensures { result ≡ vertices_of self }
    {
        let corner = |lon, lat|
            ensures { result ≡ record { lon = lon; lat = lat } }
        { LonLat { lon, lat } };
        [
            corner(self.lon_min, self.lat_min),
            corner(self.lon_min, self.lat_max),
            corner(self.lon_max, self.lat_max),
            corner(self.lon_max, self.lat_min),
        ]
    }
}
